ghost use Rattle.std.specs.Prelude.{◌≡◌};
ghost use Rattle.slot_keys.specs.GuestKeys.{keys_of_install, no_keys, with_registers};
ghost use Rattle.xom_seal.specs.Keys.{register_keys as register_keys_of};

use aes_block::Key128;
use std::marker::Model;
use xom_base::{ImageId, Key256};
use xom_seal::{LineSealer, RegisterSealer, image_keys, register_keys, run_keys};

/// The keys of a guest, made ready for any number of lines and registers. They are seen as the keys.
#[derive(Drop)]
pub struct SlotKeys {
    image: LineSealer,
    run: LineSealer,
    registers: RegisterSealer,
    run_tag: Key256,
    registers_tag: Key128,
}

impl Model for SlotKeys {
    ghost use Rattle.std.specs.Prelude.{◌≡◌};
    ghost use Rattle.slot_keys.specs.GuestKeys.{GuestKeys};

    ghost Value = { GuestKeys };

    ghost view = { λ s. record { image = s.image; run = s.run; registers = s.registers } };

    // The tag keys stand beside the sealers, which don't give them back.
    ghost invariant = { λ s. (s.run_tag ≡ s.run.tag) × (s.registers_tag ≡ s.registers.tag) };
}

impl SlotKeys {
    /// The keys of a fresh install, whose registers begin at epoch 0. `boot` is the number of the
    /// machine's start, `install` the number of the install under it.
    pub fn new(key: &Key256, id: &ImageId, boot: u64, install: u64) -> SlotKeys
        ensures { result ≡ keys_of_install key.now id.now boot install 0 }
    {
        let run = run_keys(key, boot, install);
        let registers = register_keys(key, boot, install, 0);
        SlotKeys {
            image: LineSealer::new(&image_keys(key, id)),
            run: LineSealer::new(&run),
            registers: RegisterSealer::new(&registers),
            run_tag: run.tag,
            registers_tag: registers.tag,
        }
    }

    /// The keys of no guest.
    pub fn none() -> SlotKeys
        ensures { result ≡ no_keys }
    {
        SlotKeys::new(&Key256([0; 32]), &ImageId([0; 16]), 0, 0)
    }

    /// Makes the keys of registers those of an epoch. What was saved under another is of no use then.
    pub fn renew(&mut self, key: &Key256, boot: u64, install: u64, epoch: u64)
        ensures { self.new ≡ with_registers self.old (register_keys_of key.now boot install epoch) }
    {
        let registers = register_keys(key, boot, install, epoch);
        self.registers = RegisterSealer::new(&registers);
        self.registers_tag = registers.tag;
    }

    /// The keys of the image's lines.
    pub fn image(&self) -> &LineSealer
        ensures { result.now ≡ self.now.image }
    {
        &self.image
    }

    /// The keys of the lines that the machine writes back.
    pub fn run(&self) -> &LineSealer
        ensures { result.now ≡ self.now.run }
    {
        &self.run
    }

    /// The tag key of the lines that the machine writes back, as the journal names it.
    pub fn run_tag(&self) -> &Key256
        ensures { result.now ≡ self.now.run.tag }
    {
        &self.run_tag
    }

    /// The keys of saved registers under the current epoch.
    pub fn registers(&self) -> &RegisterSealer
        ensures { result.now ≡ self.now.registers }
    {
        &self.registers
    }

    /// The tag key among them, as the journal names it.
    pub fn registers_tag(&self) -> &Key128
        ensures { result.now ≡ self.now.registers.tag }
    {
        &self.registers_tag
    }
}
