// The console: reads request lines from standard input and writes one answer line for each to standard output.
#![tactic(auto)]

use book::Book;
use byte_store::Bytes;
use std::alloc::{AllocError, Global};
use std::io;
use std::io::{BufRead, BufReader, ErrorKind, Read, Write};
use transcript::Console;
use waiting::Elder;
use window_store::Window;

// How many cells the book has, each of four bytes.
const CELLS: usize = 8;

// How much is read at a time.
const PIECE: usize = 65536;

// The console of the program: over bytes, under the rule elder.
type ByteConsole<'a> = Console<Window<Bytes<'a>>, Window<Bytes<'a>>, Elder>;

// The answers to what has been read; at the end of the input, when nothing was, the answer to a last line without byte 10.
fn answer(
    console: &mut ByteConsole<'_>,
    piece: &[u8],
    out: &mut Vec<u8>,
) -> Result<(), AllocError> {
    if piece.is_empty() {
        return console.finish(out);
    }
    console.feed(piece, out)?;
    Ok(())
}

// One read, its answers and one write: what is answered is written before more is read. Tells whether the input goes on.
fn turn(
    input: &mut impl BufRead,
    output: &mut impl Write,
    console: &mut ByteConsole<'_>,
    out: &mut Vec<u8>,
) -> io::Result<bool> {
    let piece = match input.fill_buf() {
        Err(e) if e.kind() == ErrorKind::Interrupted => return Ok(true),
        read => read?,
    };
    let count = piece.len();
    out.clear();
    let answered = answer(console, piece, out);
    input.consume(count);
    output.write_all(out)?;
    output.flush()?;
    answered?;
    Ok(count > 0)
}

// Turn after turn, until the input ends. The number of turns is bounded, since each loop has to end; no run comes so far.
fn run(
    alloc: Global,
    input: impl Read + Drop,
    output: &mut impl Write,
    console: &mut ByteConsole<'_>,
) -> io::Result<()> {
    let mut input = BufReader::with_capacity(alloc, PIECE, input)?;
    let mut out = Vec::new(alloc);
    for _ in 0..u64::MAX {
        if !turn(&mut input, output, console, &mut out)? {
            break;
        }
    }
    Ok(())
}

fn main(rt: HostRuntime) -> io::Result<()> {
    let mut main_bytes = [0u8; 4 * CELLS];
    let mut draft_bytes = [0u8; 4 * CELLS];
    let main = Window::new(Bytes::new(&mut main_bytes), 0, CELLS);
    let draft = Window::new(Bytes::new(&mut draft_bytes), 0, CELLS);
    let book = Book::open(rt.alloc(), main, draft, Elder).map_err(AllocError::from)?;
    let mut console = Console::new(book);
    let done = run(rt.alloc(), rt.stdin(), &mut rt.stdout(), &mut console);
    let (_, _, _) = console.into_book().close();
    done
}
