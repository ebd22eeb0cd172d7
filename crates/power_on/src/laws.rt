ghost use Rattle.power_on.specs.ReadAgain.{GuestsAreRead, KernelIsRead};

/// Laws and no code: the image of the kernel, and each guest's envelope and lines, are read again where
/// the machine looks for them.
pub fn images_are_read_again()
    ensures kernel { KernelIsRead }
    ensures guests { GuestsAreRead }
{}
