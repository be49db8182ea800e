// A tour of the library: one task from start to end, to be read first and copied from.
#![tactic(auto)]

ghost use Rattle.std.specs.Prelude.{◌≡◌};
ghost use Rattle.byte_store.specs.Numbers.{put_number};

mod shown;

use book::Book;
use byte_store::Bytes;
use schedule::{Event, Request};
use shown::{Hex, Metres, RuleTable, Told};
use std::io;
use store::{Outside, Store};
use waiting::{Classes, Elder, Never};
use window_store::Window;

// The window of a receiver's cells in which the survey's heights lie.
const START: usize = 1;

const COUNT: usize = 4;

// Replaces one height. The bytes are only lent: they come back with that height's four bytes replaced and all others as
// they were.
fn correct(bytes: &mut [u8], i: usize, height: i32)
    ensures bytes_after { bytes.new ≡ put_number bytes.old i height }
{
    let mut store = Bytes::new(bytes);
    let _ = store.put(i, height);
}

fn correct_all(bytes: &mut [u8], heights: &[i32]) {
    for (i, height) in heights.iter().enumerate() {
        correct(bytes, i, *height);
    }
}

// Puts one height, and says what became of it.
fn lay(
    rt: &impl Print,
    store: &mut impl Store<Cell = i32>,
    i: usize,
    height: i32,
) -> io::Result<()> {
    let metres = Metres(height);
    match store.put(i, height) {
        Ok(()) => println!(rt; "  put {metres} m into cell {i}: done"),
        Err(Outside) => println!(rt; "  put {metres} m into cell {i}: outside"),
    }
}

fn show_heights(rt: &impl Print, store: &impl Store<Cell = i32>) -> io::Result<()> {
    for i in 0..store.len() {
        if let Ok(height) = store.get(i) {
            let metres = Metres(height);
            println!(rt; "  cell {i}: {metres} m")?;
        }
    }
    Ok(())
}

// Lays five heights where four have room, reads them back, and shows that nothing else has changed.
fn work_on_a_receiver(rt: &impl Print) -> io::Result<()> {
    println!(rt;
        "A receiver's 27 bytes; the survey has the window of {COUNT} cells from cell {START} on."
    )?;
    let mut bytes = [0xeeu8; 27];
    let mut window = Window::new(Bytes::new(&mut bytes), START, COUNT);
    let heights = [1_234_567, 1_234_512, -5, i32::MIN, 42];
    for (i, height) in heights.iter().enumerate() {
        lay(rt, &mut window, i, *height)?;
    }
    println!(rt; "The window, read back:")?;
    show_heights(rt, &window)?;
    println!(rt; "The bytes below it; cells 0 and 5 and the last three bytes are as they were:")?;
    rt.println(Hex(&bytes))?;
    println!(rt; "Cell 5, past the window, is corrected in the bytes themselves:")?;
    correct(&mut bytes, 5, 42);
    rt.println(Hex(&bytes))
}

fn show_the_rules(rt: &impl Print) -> io::Result<()> {
    println!(rt; "Who may wait for whom within a group ('first': only the job that began first).")?;
    println!(rt; "Rule never:")?;
    rt.print(RuleTable(&Never))?;
    println!(rt; "Rule elder:")?;
    rt.print(RuleTable(&Elder))?;
    println!(rt; "Rule classes:")?;
    rt.print(RuleTable(&Classes))
}

// The book of the tour: over bytes, under the rule elder.
type TourBook<'a> = Book<Window<Bytes<'a>>, Window<Bytes<'a>>, Elder>;

// A crew, job 2, corrects two heights while another job wants to read one of them.
const SURVEY: [Request<i32>; 6] = [
    Request::Begin(0),
    Request::Begin(1),
    Request::Write(2, 0, 1_234_600),
    Request::Write(2, 1, 1_234_550),
    Request::Read(2, 0),
    Request::Read(1, 0),
];

const ENDS: [Request<i32>; 4] = [
    Request::End(1),
    Request::End(2),
    Request::Read(1, 0),
    Request::End(1),
];

// The old model's heights, and the new one's.
const OLD: i32 = 10_000;

const NEW: i32 = 20_000;

// A book with who shows it: each request is printed with its answer.
#[derive(Drop)]
struct Guide<'a, 'b, P: Print> {
    rt: &'a P,
    book: &'a mut TourBook<'b>,
}

impl<'a, 'b, P: Print> Guide<'a, 'b, P> {
    // Submits one request, prints it with its answer, and hands on the height that it read, if any.
    fn ask(&mut self, request: Request<i32>) -> io::Result<Option<i32>> {
        let event = self.book.submit(request);
        println!(self.rt; "  {}", Told(event))?;
        match event {
            Event::Read(_, _, Ok(height)) => Ok(Some(height)),
            _ => Ok(None),
        }
    }

    fn show_main_row(&self) -> io::Result<()> {
        print!(self.rt; "  main row:")?;
        for cell in 0..self.book.len() {
            if let Ok(height) = self.book.main_cell(cell) {
                print!(self.rt; " {}", Metres(height))?;
            }
        }
        println!(self.rt)
    }

    fn show_report(&self) -> io::Result<()> {
        let report = self.book.report();
        println!(self.rt;
            "  jobs: {} begun, {} ended, {} given up, {} rejected, {} open",
            report.begun, report.ended, report.given_up, report.rejected, report.open
        )
    }

    fn survey(&mut self) -> io::Result<()> {
        self.show_main_row()?;
        for request in SURVEY {
            self.ask(request)?;
        }
        self.show_main_row()?;
        for request in ENDS {
            self.ask(request)?;
        }
        self.show_main_row()?;
        self.show_report()
    }

    // The reader has read two cells; then the other job changes all four and ends; then the reader reads the other two.
    fn straddle(&mut self, reader: u32, changer: u32) -> io::Result<()> {
        let first = self.ask(Request::Read(reader, 0))?;
        let second = self.ask(Request::Read(reader, 1))?;
        for cell in 0..4 {
            self.ask(Request::Write(changer, cell, NEW))?;
        }
        self.ask(Request::End(changer))?;
        let third = self.ask(Request::Read(reader, 2))?;
        let fourth = self.ask(Request::Read(reader, 3))?;
        self.ask(Request::End(reader))?;
        let cells = [first, second, third, fourth];
        let told = if cells == [Some(OLD); 4] {
            "has four cells of the old model"
        } else if cells == [Some(NEW); 4] {
            "has four cells of the new model"
        } else if cells.contains(&None) {
            "was turned away before it could mix two models"
        } else {
            "has cells of two models"
        };
        println!(self.rt; "  The reader {told}.")
    }

    // Begins two jobs in groups of this size, and lets one read across the other's change of model.
    fn change_of_model(&mut self, group_size: u32, reader: u32, changer: u32) -> io::Result<()> {
        self.ask(Request::GroupSize(group_size))?;
        self.ask(Request::Begin(0))?;
        self.ask(Request::Begin(0))?;
        self.straddle(reader, changer)
    }
}

// Opens a book over two rows of bytes, carries out the task with it, and closes it.
fn with_a_book<P: Print + AllocGlobal, F: FnOnce(&mut Guide<'_, '_, P>) -> io::Result<()>>(
    rt: &P,
    heights: [i32; 4],
    task: F,
) -> io::Result<()>
    requires { F.IsAlwaysCallable task }
{
    let mut main_bytes = [0u8; 16];
    let mut draft_bytes = [0u8; 16];
    correct_all(&mut main_bytes, &heights);
    let main = Window::new(Bytes::new(&mut main_bytes), 0, 4);
    let draft = Window::new(Bytes::new(&mut draft_bytes), 0, 4);
    let Ok(mut book) = Book::open(rt.alloc(), main, draft, Elder) else {
        return println!(rt; "  no memory for the book");
    };
    let done = task(&mut Guide {
        rt,
        book: &mut book,
    });
    let (_, _, _) = book.close();
    done
}

fn main(rt: HostRuntime) -> io::Result<()> {
    work_on_a_receiver(&rt)?;
    show_the_rules(&rt)?;
    println!(rt; "A book of 4 cells under the rule elder: a crew corrects two heights.")?;
    with_a_book(&rt, [1_234_567, 1_234_512, 0, 0], |guide| guide.survey())?;
    println!(rt; "A change of model by a job of a later group than the reader's:")?;
    with_a_book(&rt, [OLD; 4], |guide| guide.change_of_model(1, 1, 2))?;
    println!(rt; "A change of model by a job of the same group:")?;
    with_a_book(&rt, [OLD; 4], |guide| guide.change_of_model(8, 1, 2))?;
    println!(rt; "A change of model by a job of an earlier group:")?;
    with_a_book(&rt, [OLD; 4], |guide| guide.change_of_model(1, 2, 1))
}
