ghost use Rattle.std.specs.Prelude.{◌≡◌, ◌≤◌, ◌<◌, ◌↔◌, IfOk, IsErr, IsNone, IsSome, None, OnErr, OnOk, Some};
ghost use Rattle.page_map.specs.Pages.{ChangesPage, DropsPages, IsPageMap, frame_of, no_pages, nothing_mapped, with_page, without_pages};

use crate::{Mapped, NotMapped};
use std::alloc::Global;
use std::marker::Model;
use xom_base::NoMemory;

/// How many private pages a slot has, of 128 lines of 32 bytes each.
pub const PAGES: u32 = 256;

/// The frames of the private pages of all slots.
#[derive(Drop)]
pub struct PageMap {
    slots: Vec<[Option<u32>; 256]>,
}

impl Model for PageMap {
    ghost use Rattle.page_map.specs.Pages.{IsPageMap, Pages};

    ghost Value = { Pages };

    ghost view = { λ m. m.slots.items };

    ghost invariant = { λ m. IsPageMap m.slots.items };
}

impl PageMap {
    /// No page is mapped. Takes all the memory that the map ever has.
    pub fn new(alloc: Global) -> Result<PageMap, NoMemory>
        ensures { IfOk result (λ map. map ≡ nothing_mapped) }
    {
        Ok(PageMap {
            slots: no_slots(alloc)?,
        })
    }

    /// Gives a page of a slot, 1 to 16, its frame. Whether RAM has the frame is the caller's care.
    pub fn map(&mut self, slot: u8, page: u32, frame: u32) -> Result<(), Mapped>
        requires some { 1 ≤ slot }
        requires known { slot ≤ 16 }
        requires page { page < 256 }
        ensures refused { IsErr result ↔ IsSome (frame_of self.old slot page) }
        ensures ok { OnOk result (self.new ≡ with_page self.old slot page (Some frame)) }
        ensures frames { OnOk result (ChangesPage self.old self.new slot page (Some frame)) }
        ensures err { OnErr result (self.new ≡ self.old) }
    {
        if self.frame_of(slot, page).is_some() {
            return Err(Mapped);
        }
        self.slots[usize::from(slot)][page as usize] = Some(frame);
        Ok(())
    }

    /// Takes the frame of a page of a slot, 1 to 16, out of the map and answers it.
    pub fn unmap(&mut self, slot: u8, page: u32) -> Result<u32, NotMapped>
        requires some { 1 ≤ slot }
        requires known { slot ≤ 16 }
        requires page { page < 256 }
        ensures refused { IsErr result ↔ IsNone (frame_of self.old slot page) }
        ensures frame { IfOk result (λ frame. frame_of self.old slot page ≡ Some frame) }
        ensures ok { OnOk result (self.new ≡ with_page self.old slot page None) }
        ensures frames { OnOk result (ChangesPage self.old self.new slot page None) }
        ensures err { OnErr result (self.new ≡ self.old) }
    {
        let Some(frame) = self.frame_of(slot, page) else {
            return Err(NotMapped);
        };
        self.slots[usize::from(slot)][page as usize] = None;
        Ok(frame)
    }

    /// The frame of a page of a slot, 1 to 16, where the page is mapped.
    pub fn frame_of(&self, slot: u8, page: u32) -> Option<u32>
        requires some { 1 ≤ slot }
        requires known { slot ≤ 16 }
        requires page { page < 256 }
        ensures { result ≡ frame_of self.now slot page }
    {
        self.slots[usize::from(slot)][page as usize]
    }

    /// Takes all pages of a slot, 1 to 16, out of the map.
    pub fn drop_slot(&mut self, slot: u8)
        requires some { 1 ≤ slot }
        requires known { slot ≤ 16 }
        ensures map { self.new ≡ without_pages self.old slot }
        ensures frames { DropsPages self.old self.new slot }
    {
        self.slots[usize::from(slot)] = empty_pages();
    }
}

#[tactic(auto, unfolding(crate::specs::Pages::no_pages))]
fn empty_pages() -> [Option<u32>; 256]
    ensures { result ≡ no_pages }
{
    [None; 256]
}

#[tactic(auto, using(crate::proofs::Frames::nothing_mapped_is_map), unfolding(crate::specs::Pages::nothing_mapped))]
fn no_slots(alloc: Global) -> Result<Vec<[Option<u32>; 256]>, NoMemory>
    ensures mapped { IfOk result (λ slots. slots.items ≡ nothing_mapped) }
    ensures map { IfOk result (λ slots. IsPageMap slots.items) }
{
    Ok(vec![in alloc; empty_pages(); 17]?)
}
