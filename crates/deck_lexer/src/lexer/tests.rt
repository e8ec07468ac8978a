ghost use Rattle.std.specs.Prelude.{◌<◌, ◌^◌, length, All};

use crate::card_line::{CardLine, Cards};
use crate::fault::LexFault;
use crate::lexer::{Lexed, cards};
use crate::word::words;
use std::alloc::{AllocError, Global};
use std::process::Abort;

// The line of a card, a colon, its words with a blank before each, and a `;`.
fn push_card(alloc: Global, shown: &mut Vec<u8>, card: &CardLine) -> Result<(), AllocError> {
    let line = card.line();
    shown.extend_from_slice(format!(in alloc; "{line}:")?.as_bytes())?;
    for i in 0..card.len() {
        shown.push(b' ')?;
        shown.extend_from_slice(card.word(i))?;
    }
    shown.push(b';')?;
    Ok(())
}

fn ending(alloc: Global, lexed: &Lexed) -> Result<String, AllocError> {
    let end = lexed.end;
    match lexed.fault {
        None => format!(in alloc; "end {end}"),
        Some(LexFault::NotAscii(line)) => format!(in alloc; "{end} not ascii {line}"),
        Some(LexFault::ContinuesNothing(line)) => format!(in alloc;
            "{end} continues nothing {line}"
        ),
        Some(LexFault::NoEnd(line)) => format!(in alloc; "{end} no end {line}"),
    }
}

fn shown(alloc: Global, text: &[u8]) -> Result<Vec<u8>, AllocError>
    requires { length text.now < 2 ^ 32 }
{
    let lexed = cards(alloc, text)?;
    let mut shown = Vec::new(alloc);
    for card in lexed.cards.all() {
        push_card(alloc, &mut shown, card)?;
    }
    shown.extend_from_slice(ending(alloc, &lexed)?.as_bytes())?;
    Ok(shown)
}

fn expect(rt: &impl Abort, alloc: Global, text: &[u8], want: &[u8]) -> Result<(), AllocError>
    requires { length text.now < 2 ^ 32 }
{
    let shown = shown(alloc, text)?;
    assert!(rt; shown.as_slice() == want, "{text:?} gives {shown:?}");
    Ok(())
}

#[test]
fn lines_and_ends(rt: HostRuntime) -> Result<(), AllocError> {
    let alloc = rt.alloc();
    expect(&rt, alloc, b"", b"0 no end 0")?;
    expect(&rt, alloc, b"rc", b"0 no end 1")?;
    expect(&rt, alloc, b"rc\n", b"0 no end 1")?;
    expect(&rt, alloc, b".end\n.end", b"end 2")?;
    expect(&rt, alloc, b"\n\n\n.end", b"end 4")?;
    expect(&rt, alloc, b"\n\n\n", b"0 no end 3")?;
    expect(
        &rt,
        alloc,
        b"t\r\nR1 a b 1k\r\n.END\r\n",
        b"2: r1 a b 1k;end 3",
    )?;
    expect(&rt, alloc, b"t\nr1 a .END\n.End\n", b"2: r1 a .end;end 3")?;
    expect(
        &rt,
        alloc,
        b"t\n.ENDS\n(.end extra words",
        b"2: .ends;end 3",
    )?;
    expect(
        &rt,
        alloc,
        b"t\n.ENDS\n.endx",
        b"2: .ends;3: .endx;0 no end 3",
    )?;
    Ok(())
}

#[test]
fn continuations(rt: HostRuntime) -> Result<(), AllocError> {
    let alloc = rt.alloc();
    expect(&rt, alloc, b"t\n+ x\n.end", b"0 continues nothing 2")?;
    expect(&rt, alloc, b"t\n+", b"0 continues nothing 2")?;
    expect(&rt, alloc, b"t\n* c\n\n+ x\n+ y", b"0 continues nothing 4")?;
    expect(&rt, alloc, b"+ t\nr1\n.end", b"2: r1;end 3")?;
    expect(
        &rt,
        alloc,
        b"t\nr1 a\n* x\n+ b 1k\n.end",
        b"2: r1 a b 1k;end 5",
    )?;
    expect(
        &rt,
        alloc,
        b"t\nr1 a\n ; x\n+b\n+\n+ 1k\nc1\n.end",
        b"2: r1 a b 1k;7: c1;end 8",
    )?;
    expect(
        &rt,
        alloc,
        b"t\nr1\n+.end\n+$x $y\n",
        b"2: r1 .end $x;0 no end 4",
    )?;
    Ok(())
}

#[test]
fn bytes_that_are_refused(rt: HostRuntime) -> Result<(), AllocError> {
    let alloc = rt.alloc();
    expect(
        &rt,
        alloc,
        b"\x80\x00\n*\x80\x00\nr1\n.end\n\x80",
        b"3: r1;end 4",
    )?;
    expect(
        &rt,
        alloc,
        b"t\nr1\nc1 \x80\n+ a\n.end",
        b"2: r1;0 not ascii 3",
    )?;
    expect(&rt, alloc, b"t\nr1 ; \xff\n.end", b"0 not ascii 2")?;
    expect(&rt, alloc, b"t\n \x80\n.end", b"0 not ascii 2")?;
    expect(&rt, alloc, b"t\nr1\n+ a\x00\n", b"2: r1;0 not ascii 3")?;
    expect(&rt, alloc, b"t\n+ \x7f\x1f", b"0 not ascii 2")?;
    expect(&rt, alloc, b"t\nr1\n.end \x80\n", b"2: r1;0 not ascii 3")?;
    expect(&rt, alloc, b"t\n\tr1\ta\x7f\n.end", b"2: r1 a\x7f;end 3")?;
    Ok(())
}

#[test]
fn words_and_comments(rt: HostRuntime) -> Result<(), AllocError> {
    let alloc = rt.alloc();
    expect(&rt, alloc, b"t\nM1 a=b(c,d)\n.end", b"2: m1 a b c d;end 3")?;
    expect(
        &rt,
        alloc,
        b"t\nx$y\nx $y\nx,$y\nx\t$y\nx\r$y\nx;y",
        b"2: x$y;3: x;4: x $y;5: x;6: x;7: x;0 no end 7",
    )?;
    expect(&rt, alloc, b"t\n;x\n$x\n ( , = )\t\r\n.end", b"end 5")?;
    expect(&rt, alloc, b"t\n;x\n$x\n ( , = )\t\r\n", b"0 no end 4")?;
    Ok(())
}

#[test]
fn words_of_one_line(rt: HostRuntime) -> Result<(), AllocError> {
    let found = words(rt.alloc(), b"a=Bc ;d")?;
    let spans: [(u32, u32); 2] = [(0, 1), (2, 2)];
    assert_eq!(rt; found.len(), 2);
    for (word, span) in found.iter().zip(spans) {
        assert_eq!(rt; (word.start, word.len), span);
    }
    Ok(())
}

#[test]
fn card_of_one_line(rt: HostRuntime) -> Result<(), AllocError> {
    let card = CardLine::of(rt.alloc(), 7, b"+R1 A,b $c")?;
    let mut list = Vec::new(rt.alloc());
    list.push(card)?;
    let list = Cards::of(list);
    let mut shown = Vec::new(rt.alloc());
    for card in list.all() {
        push_card(rt.alloc(), &mut shown, card)?;
    }
    assert!(rt; shown.as_slice() == b"7: +r1 a b;".as_slice());
    Ok(())
}
