ghost use Rattle.std.specs.Prelude.{◌≡◌, length};
ghost use Rattle.line_ram.specs.Bytes.{HoldsRange, ram_with_bytes};
ghost use Rattle.power_on.specs.Start.{ram_of_whole, whole_with_ram};

use xom_machine::Machine;
use xom_versions::VersionStore;

/// Puts bytes into RAM before the first event.
#[tactic(auto, unfolding(xom_model::specs::Null::ram_after_write), using(crate::proofs::Sizes::stored_size))]
pub fn put<V: VersionStore>(machine: &mut Machine<V>, address: u32, bytes: &[u8])
    requires first { machine.old.state.events ≡ 0 }
    requires holds { HoldsRange (ram_of_whole machine.old) address (length bytes.now) }
    ensures bytes { machine.new ≡ whole_with_ram machine.old (ram_with_bytes (ram_of_whole machine.old) address bytes.now) }
    ensures size { length (ram_of_whole machine.new) ≡ length (ram_of_whole machine.old) }
{
    machine.load(address, bytes);
}
