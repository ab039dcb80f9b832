//! The two indexes over spans on their own: the last span that stored into a page, and the places of a line's bytes.
use crate::same::{same, same_at};
use crate::serial_part::line_of;
use console_index::ConsoleIndex;
use dz_serial::SerialLine;
use samples::{number, plain, shown};
use std::alloc::Global;
use std::process::Abort;
use std::test::Fail;
use write_index::{Asked, WriteIndex};

// The last span below one that has a page, and how many nodes were asked.
fn last(index: &WriteIndex, page: u32, before: u64) -> (Option<u64>, u64) {
    let mut asked = Asked { nodes: 0 };
    let span = index.last_span(page, before, &mut asked);
    (span, asked.nodes)
}

// Compares what is answered with what is wanted, after ` = `. These are asked, where `none` is the greatest number:
//
//     last P B, nodes P B         the last span below B that has page P; the same, and how many nodes are asked
//     count L B, find L N         the bytes of line L before span B; the span of its byte N, and its place there
fn answers(
    rt: &impl Abort,
    alloc: Global,
    writes: &WriteIndex,
    console: &ConsoleIndex,
    asked: &str,
) -> Result<(), Fail> {
    for case in asked.split(", ") {
        let (question, wanted) = case.split_once(" = ").ok_or("nothing is wanted")?;
        let (name, words) = question.split_once(' ').ok_or("no question")?;
        let (of, before) = words.split_once(' ').ok_or("no end")?;
        let (of, before) = (u32::try_from(number(of)?)?, number(before)?);
        let found = match name {
            "last" => shown(alloc, &last(writes, of, before).0)?,
            "nodes" => shown(alloc, &last(writes, of, before))?,
            "count" => shown(alloc, &console.count(line_of(of)?, before))?,
            "find" => shown(alloc, &console.find(line_of(of)?, before))?,
            _ => return Err("no question".into()),
        };
        same_at(rt, &case, &found, &plain(alloc, wanted)?);
    }
    Ok(())
}

// One span, as the worked row has it.
#[test]
fn direct_calls(rt: HostRuntime) -> Result<(), Fail> {
    let mut writes = WriteIndex::new(rt.alloc());
    let mut console = ConsoleIndex::new(rt.alloc());
    let asked = "nodes 0 1 = None 0, count 0 2 = 0, find 0 0 = None";
    answers(&rt, rt.alloc(), &writes, &console, asked)?;
    writes.replace(0, &[0])?;
    console.replace(0, [0, 0, 0, 0])?;
    console.replace(1, [1, 0, 0, 0])?;
    let asked =
        "nodes 0 1 = Some 0 1, nodes 0 0 = None 0, nodes 1 1 = None 1, count 0 2 = 1, find 0 0 = Some 1 0, find 0 1 = None";
    answers(&rt, rt.alloc(), &writes, &console, asked)
}

// Spans that share pages. Each is put anew in turn, and the others stay.
#[test]
fn shared_pages(rt: HostRuntime) -> Result<(), Fail> {
    let console = ConsoleIndex::new(rt.alloc());
    let mut writes = WriteIndex::new(rt.alloc());
    writes.replace(0, &[3, 7])?;
    writes.replace(1, &[])?;
    writes.replace(2, &[7, 8255])?;
    writes.replace(3, &[3])?;
    writes.replace(4, &[1, 3])?;
    let asked =
        "last 3 5 = Some 4, last 3 4 = Some 3, last 3 3 = Some 0, last 7 5 = Some 2, last 7 2 = Some 0, \
last 8255 none = Some 2, last 8255 2 = None, last 4 5 = None";
    answers(&rt, rt.alloc(), &writes, &console, asked)?;
    writes.replace(2, &[4])?;
    let asked = "last 7 5 = Some 0, last 8255 5 = None, last 4 5 = Some 2";
    answers(&rt, rt.alloc(), &writes, &console, asked)?;
    writes.replace(0, &[])?;
    let asked = "last 7 5 = None, last 3 3 = None, last 3 4 = Some 3";
    answers(&rt, rt.alloc(), &writes, &console, asked)
}

// Spans between those that are put have no pages and no bytes.
#[test]
fn spans_between(rt: HostRuntime) -> Result<(), Fail> {
    let mut writes = WriteIndex::new(rt.alloc());
    let mut console = ConsoleIndex::new(rt.alloc());
    writes.replace(6, &[2])?;
    console.replace(6, [0, 5, 0, 1_048_576])?;
    let asked = "last 2 7 = Some 6, last 2 6 = None, count 1 6 = 0, count 1 7 = 5";
    answers(&rt, rt.alloc(), &writes, &console, asked)?;
    writes.replace(1, &[2])?;
    console.replace(1, [0, 2, 9, 0])?;
    let asked =
        "last 2 6 = Some 1, count 1 1 = 0, count 1 2 = 2, count 1 none = 7, count 2 none = 9, count 3 7 = 1048576, \
count 0 7 = 0, find 1 1 = Some 1 1, find 1 2 = Some 6 0, find 1 6 = Some 6 4, find 1 7 = None, find 3 1048575 = Some 6 1048575";
    answers(&rt, rt.alloc(), &writes, &console, asked)
}

// What is answered does not depend on how far totals were made, also after a span got other counts.
#[test]
fn totals_of_spans(rt: HostRuntime) -> Result<(), Fail> {
    let writes = WriteIndex::new(rt.alloc());
    let mut console = ConsoleIndex::new(rt.alloc());
    for span in 0..6 {
        console.replace(span, [span as u32, 1, 0, 0])?;
    }
    let asked =
        "count 0 6 = 15, count 0 4 = 6, count 1 none = 6, find 0 5 = Some 3 2, find 0 14 = Some 5 4, find 0 15 = None, find 1 3 = Some 3 0";
    for before in [0, 3, 1, 6, u64::MAX] {
        console.sum_up_to(before);
        answers(&rt, rt.alloc(), &writes, &console, asked)?;
    }
    console.replace(2, [9, 1, 0, 0])?;
    let asked =
        "count 0 6 = 22, count 0 3 = 10, find 0 9 = Some 2 8, find 0 10 = Some 3 0, find 0 21 = Some 5 4, find 0 22 = None, find 1 3 = Some 3 0";
    for before in [2, 4, 6] {
        console.sum_up_to(before);
        answers(&rt, rt.alloc(), &writes, &console, asked)?;
    }
    Ok(())
}

// A thousand spans: the first has page 5, each has page 6, and each hundredth page 7. 1,000 has ten binary digits, so no search asks more
// than 22 nodes.
#[test]
fn few_nodes_asked(rt: HostRuntime) -> Result<(), Fail> {
    let mut writes = WriteIndex::new(rt.alloc());
    for span in 0..1000 {
        if span == 0 {
            writes.replace(span, &[5, 6, 7])?;
        } else if span % 100 == 0 {
            writes.replace(span, &[6, 7])?;
        } else {
            writes.replace(span, &[6])?;
        }
    }
    for before in 0..1001u64 {
        let each = before.checked_sub(1);
        let hundredth = each.map(|span| span / 100 * 100);
        for (page, wanted) in [(5, each.map(|_| 0)), (6, each), (7, hundredth), (8, None)] {
            let (found, asked) = last(&writes, page, before);
            same_at(&rt, &(page, before), &found, &wanted);
            assert!(rt; asked <= 22);
        }
    }
    let mut asked = Asked {
        nodes: u64::MAX - 1,
    };
    same(&rt, &writes.last_span(5, 1000, &mut asked), &Some(0));
    same(&rt, &asked.nodes, &u64::MAX);
    Ok(())
}

// Each span of a thousand has one byte of line 0 and, where its number is odd, two of line 3.
#[test]
fn thousand_spans(rt: HostRuntime) -> Result<(), Fail> {
    let (l0, l3) = (SerialLine::new(0), SerialLine::new(3));
    let mut console = ConsoleIndex::new(rt.alloc());
    for span in 0..1000u32 {
        console.replace(span as u64, [1, 0, 0, span % 2 * 2])?;
    }
    for span in 0..1000 {
        same(&rt, &console.count(l0, span), &span);
        same(&rt, &console.count(l3, span), &(span / 2 * 2));
        same(&rt, &console.find(l0, span), &Some((span, 0)));
        let wanted = Some((span / 2 * 2 + 1, span % 2));
        same(&rt, &console.find(l3, span), &wanted);
    }
    let writes = WriteIndex::new(rt.alloc());
    let asked = "find 0 1000 = None, count 3 2000 = 1000";
    answers(&rt, rt.alloc(), &writes, &console, asked)?;
    console.replace(500, [0, 0, 0, 0])?;
    let asked = "find 0 499 = Some 499 0, find 0 500 = Some 501 0, count 0 1000 = 999";
    answers(&rt, rt.alloc(), &writes, &console, asked)
}
