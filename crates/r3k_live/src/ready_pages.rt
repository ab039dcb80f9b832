//! The virtual pages in which quick steps may go on at once.

ghost use Rattle.std.specs.Prelude.{◌≡◌, ◌+◌, ◌-◌, ◌^◌, ◌<◌, ◌||◌, ℕ, All, IfOk, IfSome, length, nat_eq, slice_index, slice_set};
ghost use Rattle.r3k_pages.specs.Pages.{holds};

use std::alloc::{AllocError, Global};
use std::marker::Model;

// How many virtual pages there are.
const COUNT: usize = 0x10_0000;

/// For each virtual page, one more than the number of the page of memory in which quick steps may go on that come there, or 0. All room
/// is taken when it is made.
#[derive(Drop)]
pub struct ReadyPages {
    pages: Vec<u16>,
}

impl Model for ReadyPages {
    ghost use Rattle.std.specs.Prelude.{◌≡◌, ◌^◌, List, ℕ, length};

    ghost Value = { List ℕ };

    ghost view = { λ ready. ready.pages.items };

    ghost invariant = { λ ready. length ready.pages.items ≡ 2 ^ 20 };
}

impl ReadyPages {
    /// No page. All its memory is taken here.
    pub fn new(alloc: Global) -> Result<ReadyPages, AllocError>
        ensures { IfOk result (λ ready. (number : ℕ) → slice_index ready number ≡ 0) }
    {
        Ok(ReadyPages {
            pages: no_pages(alloc, COUNT)?,
        })
    }

    /// Takes virtual pages out.
    pub fn take_out(&mut self, numbers: &[u32])
        requires { All (λ number. number < 2 ^ 20) numbers.now }
        ensures { (number : ℕ) → nat_eq (slice_index self.new number) 0 ≡ (nat_eq (slice_index self.old number) 0 || holds numbers.now number) }
    {
        take_out(&mut self.pages, numbers);
    }

    /// Adds a virtual page, with its page of memory.
    pub fn add(&mut self, number: u32, page: u32)
        requires number { number < 2 ^ 20 }
        requires page { page < 2 ^ 16 - 1 }
        ensures { self.new ≡ slice_set self.old number (page + 1) }
    {
        self.pages[number as usize] = (page + 1) as u16;
    }

    /// The page of memory of a virtual page that was added.
    #[inline(always)]
    pub fn page(&self, number: u32) -> Option<u32>
        requires { number < 2 ^ 20 }
        ensures { IfSome result (λ page. slice_index self.now number ≡ page + 1) }
    {
        match self.pages[number as usize] {
            0 => None,
            page => Some(u32::from(page) - 1),
        }
    }
}

// None for this many virtual pages.
fn no_pages(alloc: Global, count: usize) -> Result<Vec<u16>, AllocError>
    ensures long { IfOk result (λ pages. length pages.items ≡ count) }
    ensures none { IfOk result (λ pages. (number : ℕ) → slice_index pages.items number ≡ 0) }
{
    vec![in alloc; 0; count]
}

// Takes virtual pages out.
fn take_out(pages: &mut Vec<u16>, numbers: &[u32])
    requires { All (λ number. number < length pages.old.items) numbers.now }
    ensures long { length pages.new.items ≡ length pages.old.items }
    ensures left { (number : ℕ) → nat_eq (slice_index pages.new.items number) 0 ≡ (nat_eq (slice_index pages.old.items number) 0 || holds numbers.now number) }
{
    for number in numbers {
        pages[*number as usize] = 0;
    }
}
