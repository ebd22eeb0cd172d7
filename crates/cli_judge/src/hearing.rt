ghost use Rattle.std.specs.Prelude.{◌≡◌, ◌<◌, ◌+◌, ◌^◌, ◌++◌, [], ◌∷◌, List, length, true, IfOk, OnOk, if◌then◌else◌};
ghost use Rattle.xom_base.specs.declared.entry.Entry.{Entry as AnEntry};
ghost use Rattle.xom_base.specs.declared.key.Key256.{Key256 as AKey};
ghost use Rattle.xom_owners.specs.declared.owner.Owner.{Owner};
ghost use Rattle.cli_base.specs.Commands.{IsDone};
ghost use Rattle.trace_judge.specs.Numbers.{install_count, may_stand};

use cli_base::Answer;
use std::alloc::Global;
use trace_judge::{Judge, is_stop, is_suspect, print_report};
use xom_base::{Entry, Key256, NoMemory};
use xom_owners::OwnerList;

/// A judge at work, and whether an entry so far was a Stop.
#[derive(Drop)]
pub struct Hearing<'a> {
    pub judge: Judge<'a>,
    pub stopped: bool,
}

impl<'a> Hearing<'a> {
    ghost use Rattle.cli_judge.specs.Hearings.{HasHeard};
    ghost use Rattle.cli_judge.specs.Judge.{judge_answer as judged_of};

    /// Nothing was heard.
    pub fn new(
        alloc: Global,
        machine: &Key256,
        owners: &'a OwnerList,
    ) -> Result<Hearing<'a>, NoMemory>
        ensures { IfOk result (λ h. HasHeard machine.now owners.now h []) }
    {
        Ok(Hearing {
            judge: Judge::new(alloc, machine, owners)?,
            stopped: false,
        })
    }

    /// Hears the next entry, which may stand there.
    pub fn hear(&mut self, entry: &Entry) -> Result<(), NoMemory>
        ensures { OnOk result ((machine : AKey) → (owners : List Owner) → (es : List AnEntry) → length es + 1 < 2 ^ 64 → may_stand (install_count es) entry.now ≡ true → HasHeard machine owners self.old es → HasHeard machine owners self.new (es ++ entry.now ∷ [])) }
    {
        self.judge.feed(entry)?;
        self.stopped = self.stopped || is_stop(entry);
        Ok(())
    }

    /// The report on what was heard, with its status.
    pub fn answer(&self, alloc: Global) -> Result<Answer, NoMemory>
        ensures done { IfOk result (λ answer. IsDone answer.status) }
        ensures value { IfOk result (λ answer. (machine : AKey) → (owners : List Owner) → (es : List AnEntry) → HasHeard machine owners self.now es → answer ≡ judged_of machine owners es) }
    {
        let report = self.judge.report()?;
        Ok(Answer {
            text: print_report(alloc, &report)?,
            file: None,
            status: status(is_suspect(&report), self.stopped),
        })
    }
}

/// 9 for a suspect report, else 8 where a guest was stopped, else 0.
fn status(suspect: bool, stopped: bool) -> u8
    ensures value { result ≡ (if suspect then 9 else (if stopped then 8 else 0)) }
    ensures done { IsDone result }
{
    if suspect {
        9
    } else if stopped {
        8
    } else {
        0
    }
}
