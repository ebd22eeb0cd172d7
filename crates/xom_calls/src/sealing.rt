//! Image files, owners, and sealed images.

use crate::inputs::{PRIVATE, image_of, owner_of as owner_with};
use image_sealer::seal;
use std::test::Fail;
use xom_base::{ByteList, ImageId, Key256, PlainImage};
use xom_image::{ImageFault, read_plain, read_sealed, write_plain, write_sealed};
use xom_owners::{OwnerList, owner_of};
use xom_seal::{LineName, SealedLine, SealedLineList, Unwrapped, image_keys, unseal_line, unwrap};

/// The key of the machine that images are sealed for.
const MACHINE: Key256 = Key256([0xff; 32]);

// All of private memory, entered at its last word: 32,768 lines.
#[test]
fn the_largest_image_is_written_sealed_and_opened(rt: HostRuntime) -> Result<(), Fail> {
    let image = PlainImage {
        entry: 0xffffc,
        bytes: ByteList::from_vec(vec![in rt.alloc(); 7; PRIVATE]?),
    };
    let file = write_plain(rt.alloc(), &image)?;
    assert!(rt; file.len() == 1_048_592);
    let plain = read_plain(rt.alloc(), &file)?;
    assert!(rt; plain.entry == 0xffffc);
    assert!(rt; plain.bytes.as_slice() == image.bytes.as_slice());
    let owner = owner_with(plain, 3, 9);
    let sealed = seal(rt.alloc(), &owner, &MACHINE)?;
    let file = write_sealed(rt.alloc(), &sealed)?;
    assert!(rt; file.len() == 2_097_248);
    let read = read_sealed(rt.alloc(), &file)?;
    assert!(rt; read.lines.len() == 32_768);
    let last = read.lines.get(32_767).ok_or("no last line")?;
    let name = LineName::Image {
        id: owner.id,
        line: 32_767,
    };
    let keys = image_keys(&owner.key, &owner.id);
    assert!(rt; unseal_line(&name, &keys, last) == Some([7; 32]));
    assert!(rt;
        unwrap(&MACHINE, &read.envelope)
            == Some(Unwrapped {
                id: owner.id,
                entry: 0xffffc,
                lines: 32_768,
                key: owner.key,
            })
    );
    Ok(())
}

#[test]
fn the_first_owner_of_an_id_is_found(rt: HostRuntime) -> Result<(), Fail> {
    let mut owners = OwnerList::new(rt.alloc());
    for id in 1..17 {
        owners.push(owner_with(image_of(rt.alloc(), &[])?, id, id))?;
    }
    owners.push(owner_with(image_of(rt.alloc(), &[])?, 99, 8))?;
    assert!(rt; owners.len() == 17);
    for id in 1..17 {
        let found = owner_of(&owners, &ImageId([id; 16]));
        assert_eq!(rt; found.map(|owner| owner.key.0[31]), Some(id));
    }
    assert!(rt; owner_of(&owners, &ImageId([17; 16])).is_none());
    Ok(())
}

#[test]
fn lines_are_listed_and_faults_are_told(rt: HostRuntime) -> Result<(), Fail> {
    let mut lines = SealedLineList::new(rt.alloc());
    assert!(rt; lines.len() == 0);
    lines.push(SealedLine {
        ct: [1; 32],
        tag: [2; 32],
    })?;
    assert!(rt; lines.as_slice().len() == 1);
    assert!(rt; lines.get(0).map(|line| line.tag[31]) == Some(2));
    let bad = ImageFault::Bad(10);
    let text = format!(in rt.alloc(); "{bad}, {}", ImageFault::NoMemory)?;
    assert!(rt; text.as_str() == "byte 10: bad, out of memory");
    Ok(())
}
