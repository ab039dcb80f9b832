//! Words of memory, asked one by one.

ghost use Rattle.std.specs.Prelude.{◌≡◌, ◌+◌, ◌-◌, ◌*◌, ◌%◌, ◌^◌, ◌<◌, ◌≤◌, ◌⊎◌, Contains, Err, IfOk, IfSome, IsOk, MatchResult, Ok};
ghost use Rattle.r3k_word.specs.Layout.{place_of_word};
ghost use Rattle.r3k_word.specs.declared.layout.TheConstants.{MAX_RAM_PAGES};
ghost use Rattle.refusal.specs.declared.fault.Fault.TheVariants.{Memory};
ghost use Rattle.wb_session.specs.Memory.{places_of};
ghost use Rattle.timeline.specs.TimelineView.{Asks};
ghost use Rattle.wb_session.specs.Cost.{KeepsStateOnce};
ghost use Rattle.wb_session.specs.Session.{triple_of, words_shown};

use crate::session::Session;
use arrayvec::ArrayVec;
use r3k_word::layout::place_of;
use refusal::Fault;
use wb_text::{Address, WordCount, Words};

impl<const PAGES: u32, const SPAN: u32> Session<PAGES, SPAN> {
    /// The words of memory from an address on. All addresses are judged before a word is asked for.
    pub(crate) fn words(&mut self, address: Address, count: WordCount) -> Result<Words, Fault>
        ensures words { (result ≡ words_shown PAGES (triple_of self.old) address count)
            ⊎ ((result ≡ Err Memory) × IsOk (places_of PAGES address count)) }
        ensures same { triple_of self.new ≡ triple_of self.old }
        ensures asks { Asks PAGES SPAN self.old.position ((count - 1) * (self.old.position % SPAN)) self.old.timeline self.new.timeline result }
        ensures keeps_state { KeepsStateOnce SPAN self.old.position self.old.timeline self.new.timeline result }
        ensures free { Contains self.old.timeline.recent_states self.old.position → self.new.timeline.steps ≡ self.old.timeline.steps }
    {
        let position = self.position;
        let _places = places_from::<PAGES>(address, count)?;
        let mut words = ArrayVec::new();
        for word in 0..count.get() {
            let address = (address.get() + 4 * word) as u32;
            match self.timeline.word_at(position, address) {
                Ok(value) => words.push(value),
                Err(fault) => return Err(fault),
            }
        }
        Ok(Words {
            address: address.get() as u32,
            words,
        })
    }
}

// The places of words from an address on, or why they are not all words of RAM or ROM.
fn places_from<const PAGES: u32>(
    address: Address,
    count: WordCount,
) -> Result<ArrayVec<usize, 32>, Fault>
    requires { PAGES ≤ MAX_RAM_PAGES }
    ensures places { MatchResult result (λ places. places_of PAGES address count ≡ Ok places.items)
        (λ fault. places_of PAGES address count ≡ Err fault) }
    ensures within { IfOk result (λ _. address + 4 * count ≤ 2 ^ 32) }
{
    if address.get() % 4 != 0 {
        return Err(Fault::Unaligned);
    }
    let mut places = ArrayVec::new();
    for word in 0..count.get() {
        match place_at::<PAGES>(address.get() + 4 * word) {
            Some(place) => places.push(place),
            None => return Err(Fault::NotMemory),
        }
    }
    Ok(places)
}

// The place of the word at an address, if it is a word of RAM or ROM.
fn place_at<const PAGES: u32>(address: u64) -> Option<usize>
    requires { PAGES ≤ MAX_RAM_PAGES }
    ensures place { result ≡ place_of_word PAGES address }
    ensures within { IfSome result (λ _. address < 2 ^ 32) }
{
    let address = u32::try_from(address).ok()?;
    place_of(PAGES, address)
}
