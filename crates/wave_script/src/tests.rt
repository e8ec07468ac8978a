//! Scripts, and what each is read as.

use crate::{Command, read_script};
use deck_cards::{Edit, name_of};
use std::alloc::Global;
use std::fmt::Write;
use std::test::Fail;

/// Scripts, and their commands, each with its line; or the line and the cause of the first fault.
const SCRIPTS: &[(&str, &str)] = &[
    // Lines: blank, of a comment, of CR and LF; letters, separators and bytes.
    ("", ""),
    (" \t\r\n\n* é\n;x\n$ x", ""),
    (
        "RUN\r\n\n*look\nLook ; x\nwork $",
        "1 run; 4 look; 5 work; ",
    ),
    ("ic(B)=0.5,", "1 ic b 500000; "),
    ("look\nrun ;é", "2 not ascii"),
    ("foo \u{1}", "1 not ascii"),
    ("run\n+ x", "2 unknown command +"),
    ("+run", "1 unknown command +run"),
    (" *", "1 unknown command *"),
    (".END", "1 unknown command .end"),
    ("run$x", "1 unknown command run$x"),
    // The first line at fault.
    ("run\nset r1 x\nfoo", "2 bad number x"),
    ("foo\nset", "1 unknown command foo"),
    // Values.
    (
        "set R1 1k\nset Rx -1",
        "1 setr r1 1000000; 2 setr rx -1000; ",
    ),
    ("set C1 1p\nset x 2f", "1 setc c1 1000000; 2 setc x 2000; "),
    ("set", "1 wrong words"),
    ("set r1", "1 wrong words"),
    ("set r1 x y", "1 wrong words"),
    ("set c1 1", "1 bad number 1"),
    ("ic GND -2k", "1 ic 0 -2000000000; "),
    ("ic b", "1 wrong words"),
    ("ic b x y", "1 wrong words"),
    ("ic b x", "1 bad number x"),
    // Voltages of sources.
    ("wave V1 5 PWL(0 0 1p 1)", "1 wave v1 0:0 1:1000000; "),
    ("wave v1 pwl -1p 5 0 1", "1 wave v1 10000000001:0; "),
    ("wave v1 pwl 11m 0", "1 wave v1 11000000000:0; "),
    ("wave", "1 wrong words"),
    ("wave v1", "1 wrong words"),
    ("wave v1 x", "1 bad card unsupported x"),
    ("wave v1 dc", "1 bad card wrong words"),
    ("wave v1 pwl 1p x 0 0", "1 bad number x"),
    ("wave v1 pwl -1p 0 -2p 0", "1 bad card times not rising"),
    // Elements.
    ("add R2 a b 0\nadd M1 d g 0 0 sw", "1 add r2; 2 add m1; "),
    ("add", "1 wrong words"),
    ("add .ic v b 0", "1 bad card unsupported .ic"),
    ("add L1 a b 1", "1 bad card unsupported l1"),
    ("add M1 d g 0 0 sw foo", "1 bad card unsupported foo"),
    ("add r2 a b", "1 bad card wrong words"),
    ("add r2 a b x", "1 bad number x"),
    ("add v2 a 0 pwl 1p 0 1p 0", "1 bad card times not rising"),
    ("del R1\nmodel M1 Slow", "1 del r1; 2 model m1 slow; "),
    ("del", "1 wrong words"),
    ("del a b", "1 wrong words"),
    ("model m1", "1 wrong words"),
    ("model m1 a b", "1 wrong words"),
    // Settling and looking.
    ("run x", "1 wrong words"),
    ("look 1", "1 wrong words"),
    ("work x", "1 wrong words"),
    ("show B\nshow gnd 1n 1n", "1 show b; 2 show 0 1000 1000; "),
    ("show", "1 wrong words"),
    ("show b x", "1 wrong words"),
    ("show b x y z", "1 wrong words"),
    ("show b 2p 1p", "1 wrong words"),
    ("show b x -1p", "1 bad number x"),
    ("show b -1p x", "1 bad number -1p"),
    ("show b 1p -1p", "1 bad number -1p"),
    ("events\nevents 0 1n", "1 events; 2 events 0 1000; "),
    ("events x", "1 wrong words"),
    ("events 1p 0", "1 wrong words"),
    ("events 0 x", "1 bad number x"),
    // Pins.
    (
        "pin A\npin a\nuse a\nunpin a\npin a\nuse A",
        "1 pin a; 2 pin a; 3 use a; 4 unpin a; 5 pin a; 6 use a; ",
    ),
    ("pin", "1 wrong words"),
    ("pin a b", "1 wrong words"),
    ("use", "1 wrong words"),
    ("use a b", "1 wrong words"),
    ("unpin", "1 wrong words"),
    ("use a\npin a", "1 no such pin a"),
    ("pin a\nuse b", "2 no such pin b"),
    ("pin a\nunpin a\nuse a", "3 no such pin a"),
    ("pin a\nunpin a\nunpin A", "3 no such pin a"),
];

/// An edit, in a few words.
fn write_edit(text: &mut String, edit: &Edit) -> Result<(), Fail> {
    match edit {
        Edit::SetR { name, ohms } => write!(text, "setr {name} {ohms}")?,
        Edit::SetC { name, farads } => write!(text, "setc {name} {farads}")?,
        Edit::SetWave { name, wave } => {
            write!(text, "wave {name}")?;
            for (tick, volts) in wave.points() {
                write!(text, " {tick}:{volts}")?;
            }
        }
        Edit::SetModel { name, part } => write!(text, "model {name} {part}")?,
        Edit::SetIc { node, volts } => write!(text, "ic {node} {volts}")?,
        Edit::Add(element) => {
            let name = name_of(element);
            write!(text, "add {name}")?;
        }
        Edit::Remove(name) => write!(text, "del {name}")?,
    }
    Ok(())
}

/// The ticks that are to be told, where not all are.
fn write_range(text: &mut String, range: &Option<(u64, u64)>) -> Result<(), Fail> {
    if let Some((first, last)) = range {
        write!(text, " {first} {last}")?;
    }
    Ok(())
}

/// A command, in a few words.
fn write_command(text: &mut String, command: &Command) -> Result<(), Fail> {
    match command {
        Command::Edit(edit) => write_edit(text, edit)?,
        Command::Run => write!(text, "run")?,
        Command::Look => write!(text, "look")?,
        Command::Show { node, range } => {
            write!(text, "show {node}")?;
            write_range(text, range)?;
        }
        Command::Events { range } => {
            write!(text, "events")?;
            write_range(text, range)?;
        }
        Command::Pin(name) => write!(text, "pin {name}")?,
        Command::UsePin(name) => write!(text, "use {name}")?,
        Command::Unpin(name) => write!(text, "unpin {name}")?,
        Command::Work => write!(text, "work")?,
    }
    Ok(())
}

/// What a text is read as.
fn shown(alloc: Global, script: &str) -> Result<String, Fail> {
    let mut text = String::new(alloc);
    if script.len() > 1_000 {
        return Ok(text);
    }
    match read_script(alloc, script.as_bytes()) {
        Err(refusal) => {
            let line = refusal.line;
            let why = refusal.why;
            write!(text, "{line} {why}")?;
        }
        Ok(read) => {
            for place in 0..read.len() {
                let (line, command) = read.get(place);
                write!(text, "{line} ")?;
                write_command(&mut text, command)?;
                write!(text, "; ")?;
            }
        }
    }
    Ok(text)
}

#[test]
fn scripts_as_read(rt: HostRuntime) -> Result<(), Fail> {
    let alloc = rt.alloc();
    let mut wrong = String::new(alloc);
    for (script, want) in SCRIPTS {
        let shown = shown(alloc, script)?;
        if shown.as_str() != *want {
            write!(wrong, "{script} gives {shown} in place of {want}; ")?;
        }
    }
    assert_eq!(rt; wrong.as_str(), "");
    Ok(())
}
