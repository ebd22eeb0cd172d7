use xom_base::PlainImage;
use xom_script::Script;

/// What a kernel does, as its file has it.
#[derive(Drop)]
pub enum KernelFile {
    /// It follows this script.
    Script(Script),
    /// It runs this image, which is put into RAM from address 0 on.
    Image(PlainImage),
}
