ghost use Rattle.std.specs.Prelude.{◌≡◌, length};
ghost use Rattle.xom_model.specs.Guest.{given_out, null_word as null_word_of};

use line_ram::LineRam;
use xom_base::Released;

/// The big-endian word of RAM at an address, 0 where not all of it is in RAM.
pub fn null_word(ram: &LineRam, address: u32) -> u32
    ensures { result ≡ null_word_of ram.now address }
{
    if !ram.holds(address, 4) {
        return 0;
    }
    let mut bytes = [0; 4];
    ram.read(address, &mut bytes);
    u32::from_be_bytes(bytes)
}

/// Writes what a step gives out to RAM. Outside RAM nothing is written.
pub fn give_out(ram: &mut LineRam, released: Released)
    ensures bytes { ram.new ≡ given_out ram.old released }
    ensures size { length ram.new ≡ length ram.old }
{
    if let Released::Null { address, value } = released {
        if ram.holds(address, 4) {
            ram.write(address, &value.to_be_bytes());
        }
    }
}
