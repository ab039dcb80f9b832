//! The command line: good and wrong words, and the line of a fault. `.ci/sessions.py` tests the texts of help and usage.
use crate::same::{same, same_at};
use asm_line::kind::AsmKind;
use r3k_image::ImageKind;
use std::alloc::Global;
use std::str;
use std::test::Fail;
use workbench::{Kind, NoWords, Order, Plan, RunFault, fault_line, options, r3kwb, status};

// What a line asks for, or the status that it ends with.
fn asked<'a>(alloc: Global, words: &'a [&'a str]) -> Result<(Kind, u32, u32), u8> {
    match options(alloc, words) {
        Ok(asked) => Ok((asked.kind, asked.size, asked.log_size)),
        Err(fault) => Err(status(&Err(fault))),
    }
}

// The words of a line.
fn words_of(alloc: Global, line: &str) -> Result<Vec<&str>, Fail> {
    let mut words = Vec::new(alloc);
    for word in line.split(' ') {
        words.push(word)?;
    }
    Ok(words)
}

/// Good lines are taken: a program that always reports usage fails here.
#[test]
fn always_usage(rt: HostRuntime) -> Result<(), Fail> {
    same(&rt, &asked(rt.alloc(), &[]), &Ok((Kind::Rom, 0, 0)));
    for (line, kind, size, log_size) in [
        ("r3kwb", Kind::Rom, 0, 0),
        ("r3kwb --kind image --size 32", Kind::Image, 32, 0),
        ("r3kwb --kind source --size 7", Kind::Source, 7, 0),
        ("r3kwb --size=5 --kind=rom", Kind::Rom, 5, 0),
        ("r3kwb --log 18 --size 7", Kind::Rom, 7, 18),
        ("r3kwb --log=67108864", Kind::Rom, 0, 67_108_864),
        ("r3kwb --size 67108864", Kind::Rom, 67_108_864, 0),
    ] {
        let words = words_of(rt.alloc(), line)?;
        let found = asked(rt.alloc(), &words);
        same_at(&rt, &line, &found, &Ok((kind, size, log_size)));
    }
    Ok(())
}

#[test]
fn wrong_lines(rt: HostRuntime) -> Result<(), Fail> {
    for line in [
        "r3kwb --size 67108865",
        "r3kwb --size -1",
        "r3kwb --size=",
        "r3kwb --size",
        "r3kwb --size +5",
        "r3kwb --size 1 --size 1",
        "r3kwb --kind sources",
        "r3kwb --kind=",
        "r3kwb image",
        "r3kwb --log",
        "r3kwb --log=",
        "r3kwb --log 67108865",
        "r3kwb --log -1",
        "r3kwb --log 0x1",
        "r3kwb --log 1 2",
        "r3kwb --log 1 --log 1",
        "r3kwb --logs 1",
    ] {
        let words = words_of(rt.alloc(), line)?;
        same_at(&rt, &line, &asked(rt.alloc(), &words), &Err(2));
    }
    Ok(())
}

/// Without words nothing is read.
#[test]
fn no_words(rt: HostRuntime) -> Result<(), Fail> {
    let alloc = rt.alloc();
    for (why, fault, part) in [
        (NoWords::NoMemory, 4, "r3kwb: error 1 Memory\n"),
        (NoWords::NotText, 2, "the words are not all UTF-8 text"),
    ] {
        let mut input = Plan::new(alloc, b"pos\n", 1, 0)?;
        let mut output = Plan::new(alloc, &[], 1, 100)?;
        let mut errors = Plan::new(alloc, &[], 1, 1000)?;
        let status = r3kwb(
            alloc,
            Err(why),
            &mut input,
            &mut output,
            &mut errors,
            &mut Order::new(),
        );
        same_at(&rt, &why, &status, &fault);
        same_at(&rt, &why, &input.left().len(), &4);
        same_at(&rt, &why, &output.written().len(), &0);
        let text = str::from_utf8(errors.written())?;
        same_at(&rt, &why, &text.contains(part), &true);
    }
    Ok(())
}

#[test]
fn fault_lines(rt: HostRuntime) {
    let longest = RunFault::BadSource {
        line: u64::MAX,
        kind: AsmKind::Overlap,
    };
    let faults: [(RunFault, &[u8], u8); 3] = [
        (
            RunFault::BadImage(ImageKind::Short),
            b"r3kwb: error 9 BadImage Short\n",
            1,
        ),
        (
            longest,
            b"r3kwb: error 13 BadSource 18446744073709551615 Overlap\n",
            1,
        ),
        (RunFault::ReadFault, b"r3kwb: error 11 ReadFault\n", 3),
    ];
    for (fault, line, ends) in faults {
        same(&rt, &fault_line(&fault).as_slice(), &line);
        same(&rt, &status(&Err(fault)), &ends);
    }
    same(&rt, &status(&Err(RunFault::WriteFault)), &3);
    same(&rt, &status(&Err(RunFault::Memory)), &4);
    same(&rt, &status(&Ok(())), &0);
}
