ghost use Rattle.std.specs.Prelude.{◌≡◌};
ghost use Rattle.xom_model.specs.Null.{cause_argument as cause_argument_of, cause_number as cause_number_of, fault_number as fault_number_of, null_answer, rule_number as rule_number_of};
ghost use Rattle.xom_null.specs.Parts.{null_told};

use mips_effect::Asked;
use xom_base::{Cause, OwnFault, Rule};

/// What null code is told, of the last status, and of why and from which slot a guest left last.
pub fn answer(status: u32, cause: Cause, who: u8, asked: Asked) -> u32
    ensures { result ≡ null_answer (null_told status cause who) asked }
{
    match asked {
        Asked::Status => status,
        Asked::Cause => cause_number(cause),
        Asked::Arg => cause_argument(cause),
        Asked::Who => u32::from(who),
    }
}

/// The number that stands for a cause.
fn cause_number(cause: Cause) -> u32
    ensures { result ≡ cause_number_of cause }
{
    match cause {
        Cause::Nothing => 0,
        Cause::Interrupt => 1,
        Cause::Call(_) => 2,
        Cause::Page(_) => 3,
        Cause::Fault(_) => 4,
        Cause::Exit => 5,
        Cause::Stopped(_) => 6,
    }
}

/// The number that a cause has with it, and 0 where it has none.
fn cause_argument(cause: Cause) -> u32
    ensures { result ≡ cause_argument_of cause }
{
    match cause {
        Cause::Call(code) => code,
        Cause::Page(page) => page,
        Cause::Fault(fault) => fault_number(fault),
        Cause::Stopped(rule) => rule_number(rule),
        Cause::Nothing | Cause::Interrupt | Cause::Exit => 0,
    }
}

/// The number that stands for a guest's own fault.
fn fault_number(fault: OwnFault) -> u32
    ensures { result ≡ fault_number_of fault }
{
    match fault {
        OwnFault::Reserved => 1,
        OwnFault::Foreign => 2,
        OwnFault::Overflow => 3,
        OwnFault::Address => 4,
        OwnFault::Break => 5,
    }
}

/// The number that stands for a rule by which a guest was stopped.
fn rule_number(rule: Rule) -> u32
    ensures { result ≡ rule_number_of rule }
{
    match rule {
        Rule::LineTag(_) => 1,
        Rule::TreeNode(_) => 2,
        Rule::RegisterTag(_) => 3,
        Rule::RegisterMissing(_) => 4,
    }
}
