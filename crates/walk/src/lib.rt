// The elements of a whole file one after the other, each before those inside it.
//
// A `Walk` holds where the next element begins and where the constructed elements around that place end.
// `Walk::step` reads one element there and enters it where its tag says that elements stand inside. Each
// element that it gives is the one that reading the octets at its place gives, each step goes forward, and
// nesting takes room on the heap, never on the stack. It rests on `element`.
#![tactic(auto)]

ghost use Rattle.std.specs.Prelude.{◌≡◌, ◌+◌, ◌-◌, ◌<◌, ◌≤◌, [], length, IfSome, IfOk, if◌then◌else◌, vec_len, slice_index};
ghost use Rattle.walk.specs.declared.WalkError.TheVariants.{Fault, Memory};
ghost use Rattle.walk.specs.Steps.{opens, limit_of, node_seen, Stepped};

use content::tag;
use element::{Element, Part, read};
use fault::ElementFault;
use std::alloc::{AllocError, AllocFailed, Global};

// Why a walk stops before the end.
#[derive(Clone, Copy)]
pub enum WalkError {
    Fault(ElementFault),
    Memory,
}

impl From<ElementFault> for WalkError {
    ghost from_gives = { λ e r. r ≡ Fault e };

    fn from(e: ElementFault) -> WalkError {
        WalkError::Fault(e)
    }
}

impl<T: Drop> From<AllocFailed<T>> for WalkError {
    ghost from_gives = { λ _ r. r ≡ Memory };

    fn from(_e: AllocFailed<T>) -> WalkError {
        WalkError::Memory
    }
}

// An element of the file, and how many elements stand around it.
#[derive(Clone, Copy)]
pub struct Node<'a> {
    pub element: Element<'a>,
    pub depth: usize,
}

#[derive(Drop)]
pub struct Walk<'a> {
    file: &'a [u8],
    place: usize,
    ends: Vec<usize>,
}

// Whether elements stand inside one of this tag: a SEQUENCE, a SET, or a constructed one of no universal tag.
pub fn is_constructed(tag: u8) -> bool
    ensures { result ≡ opens tag }
{
    tag == tag::SEQUENCE || tag == tag::SET || (tag >= 0x40 && tag / 0x20 % 2 != 0)
}

impl<'a> Walk<'a> {
    // The walk over a file, before its first element.
    pub fn new(heap: Global, file: &'a [u8]) -> Walk<'a>
        ensures file { result.file.now ≡ file.now }
        ensures place { (result.place ≡ 0) × (result.ends.items ≡ []) }
    {
        Walk {
            file,
            place: 0,
            ends: Vec::new(heap),
        }
    }

    // Leaves the elements that end here.
    fn leave(&mut self)
        ensures file { self.new.file.now ≡ self.old.file.now }
        ensures place { self.new.place ≡ self.old.place }
        ensures within { 0 < vec_len self.new.ends → self.new.place < slice_index self.new.ends.items (vec_len self.new.ends - 1) }
    {
        while let Some(end) = self.ends.last() {
            if *end > self.place {
                return;
            }
            let _ = self.ends.pop();
        }
    }

    // Where the innermost element that is open ends, or the file.
    fn limit(&self) -> usize
        ensures bound { result ≤ length self.now.file.now }
        ensures value { result ≡ limit_of (length self.now.file.now) self.now.ends.items }
    {
        match self.ends.last() {
            Some(end) => (*end).min(self.file.len()),
            None => self.file.len(),
        }
    }

    // The next element, or none at the end of the file.
    pub fn step(&mut self) -> Result<Option<Node<'a>>, WalkError>
        ensures file { self.new.file.now ≡ self.old.file.now }
        ensures value { Stepped self.old.file.now self.old.place self.new.place (node_seen result) }
        ensures depth { IfOk result (λ o. IfSome o (λ n. vec_len self.new.ends ≡ n.depth + (if opens n.element.tag then 1 else 0))) }
    {
        self.leave();
        let place = self.place;
        let limit = self.limit();
        if place >= limit {
            return Ok(None);
        }
        let octets = &self.file[place..limit];
        let (element, rest) = read(Part { octets, place })?;
        let depth = self.ends.len();
        if is_constructed(element.tag) {
            self.ends.push(rest.place)?;
            self.place = element.content.place;
        } else {
            self.place = rest.place;
        }
        Ok(Some(Node { element, depth }))
    }
}
