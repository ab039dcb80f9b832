//! The translation entries on their own. EntryHi of page 3 is 0x3000, and of process 1 of it 0x3040. EntryLo has G in bit 8.
use crate::lists::{Part, plays, within};
use std::test::Fail;
use tlb64::{Entry, Found, Tlb};

// Clauses on the entries, where F is what is found: nothing, or its place, EntryHi and EntryLo, and whether several match.
//
//     write I H L, read I H L     an entry is written, or read
//     lookup A P F, probe H F     what is found for an address and a process; for an EntryHi
//     translate U A H F           what is found for an address and an EntryHi, for a fetch if U is 1
//     kept U A H, kept U A H L    nothing of it is kept, or this EntryLo
impl Part for Tlb {
    fn begin() -> Tlb {
        Tlb::new()
    }

    fn copy_from(&mut self, other: &Tlb) {
        *self = Tlb::of(other.entries());
    }

    fn clause(&mut self, name: &str, numbers: &[u32]) -> Result<bool, Fail> {
        Ok(match (name, numbers) {
            ("write", [index, hi, lo]) => {
                self.write(within(*index, 0, 63)?, entry(*hi, *lo));
                true
            }
            ("read", [index, hi, lo]) => self.read(within(*index, 0, 63)?) == entry(*hi, *lo),
            ("lookup", [address, pid, found @ ..]) => self.lookup(*address, *pid)
                == found_of(found)?,
            ("probe", [hi, found @ ..]) => self.probe(*hi) == found_of(found)?,
            ("translate", [fetch, address, hi, found @ ..]) => {
                self.translate(*fetch != 0, *address, *hi) == found_of(found)?
            }
            ("kept", [fetch, address, hi, lo @ ..]) => {
                self.kept(*fetch != 0, *address, *hi) == lo.first().copied()
            }
            _ => false,
        })
    }
}

fn entry(hi: u32, lo: u32) -> Entry {
    Entry { hi, lo }
}

fn found_of(numbers: &[u32]) -> Result<Option<Found>, Fail> {
    match numbers {
        [] => Ok(None),
        [index, hi, lo, several] => Ok(Some(Found {
            index: *index,
            entry: entry(*hi, *lo),
            several: *several != 0,
        })),
        _ => Err("nothing that can be found".into()),
    }
}

#[test]
fn lists(rt: HostRuntime) -> Result<(), Fail> {
    plays::<Tlb>(&rt, LISTS)
}

const LISTS: &str = "
$ lookup
| 5 0x3040 0x7300 0 | 5 0x3040 0x7300 1
write 5 0x3040 0x7200, lookup 0x3000 0, lookup 0x3000 1 5 0x3040 0x7200 0
# It is global, and then there is another one.
write 5 0x3040 0x7300, lookup 0x3000 0 $1, write 9 0x3000 0x8200, lookup 0x3000 0 $2, lookup 0x3fff 0 $2, probe 0x3000 $2
# What several entries match is never kept; what one matches is, of its process and for its use alone.
translate 0 0x3004 0 $2, kept 0 0x3004 0, translate 0 0x3008 0x40 $1, kept 0 0x3ffc 0x40 0x7300, kept 0 0x3ffc 0x80, translate 0 0xb000 0
translate 1 0x3004 0 $2, kept 1 0x3004 0, translate 1 0x3008 0x40 $1, kept 1 0x3ffc 0x40 0x7300, kept 1 0x3ffc 0x80, translate 1 0xb000 0
translate 0 0x3004 0 $2, kept 0 0x3004 0, translate 0 0x3008 0x40 $1, kept 0 0x3ffc 0x40 0x7300, kept 0 0x3ffc 0x80, translate 0 0xb000 0
translate 1 0x3004 0 $2, kept 1 0x3004 0, translate 1 0x3008 0x40 $1, kept 1 0x3ffc 0x40 0x7300, kept 1 0x3ffc 0x80, translate 1 0xb000 0
# Process 1 has the global entry alone, and the next page has none.
probe 0x3040 $1, lookup 0x4000 0, read 5 0x3040 0x7300, read 9 0x3000 0x8200
write 5 0x3000 0x8200, kept 1 0x3004 0x40, translate 1 0x3004 0x40

$ reset
# All entries are of page 0 and process 0, and none is global.
lookup 0xfff 0 0 0 0 1, lookup 0xfff 1, lookup 0xfff 64, lookup 0x1000 0, read 63 0 0

$ entries that are taken over
write 63 0x3040 0x7200, other, mark, same, swap, read 63 0x3040 0x7200, lookup 0x3000 1 63 0x3040 0x7200 0
";
