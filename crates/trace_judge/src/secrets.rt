ghost use Rattle.std.specs.Prelude.{◌≡◌};
ghost use Rattle.trace_judge.specs.Secrets.{fingerprint_secret as secret_under};

use keyed_mac::tag;
use xom_base::Key256;

/// The prefix under which the secret of fingerprints is derived from a machine's key.
const FINGERPRINTS: u8 = 0x20;

/// The secret of the fingerprints by which a judge looks up. Whoever writes a journal without knowing the
/// machine's key can't choose texts by their fingerprints.
pub fn fingerprint_secret(machine: &Key256) -> [u8; 32]
    ensures { result ≡ secret_under machine.now }
{
    tag(&machine.0, &[FINGERPRINTS])
}
