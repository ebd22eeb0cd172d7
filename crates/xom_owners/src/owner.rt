ghost use Rattle.std.specs.Prelude.{◌≡◌, option_copied};
ghost use Rattle.xom_owners.specs.Owners.{owner_of, same_id};

use xom_base::{ImageId, Key256, List, PlainImage};

/// An image with the key and the id that its owner chose.
#[derive(Drop)]
pub struct Owner {
    /// The program.
    pub plain: PlainImage,
    /// The key that its lines are sealed under.
    pub key: Key256,
    /// Its public name.
    pub id: ImageId,
}

/// A growing list of owners.
pub type OwnerList = List<Owner>;

/// The first owner of an id. Looks through the list, of at most 16 in a run.
pub fn owner_of<'a>(owners: &'a OwnerList, id: &ImageId) -> Option<&'a Owner>
    ensures { option_copied result ≡ owner_of owners.now id.now }
{
    first_of(owners.as_slice(), id)
}

/// Whether two ids are the same.
pub fn same(a: &ImageId, b: &ImageId) -> bool
    ensures { result ≡ same_id a.now b.now }
{
    a.0.as_slice() == b.0.as_slice()
}

fn first_of<'a>(owners: &'a [Owner], id: &ImageId) -> Option<&'a Owner>
    ensures { option_copied result ≡ owner_of owners.now id.now }
{
    for owner in owners {
        if same(&owner.id, id) {
            return Some(owner);
        }
    }
    None
}
