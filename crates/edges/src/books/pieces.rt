// An input that comes in two pieces: wherever it is cut, its lines get the same answers.
use super::opened;
use std::alloc::{AllocError, Global};
use std::test::Fail;
use store::Memory;
use transcript::Console;
use waiting::Elder;

const INPUT: &[u8; 39] = b"L 2\nB 0\nW 1 0 12345\n\nR 1 0\nE 1\nB 0 \nR 3";

const ANSWERS: &[u8; 49] = b"L 2\nT 1 1 1\nK\nN 10 0\nV 12345\nE 1 1\nN 10 3\nN 10 3\n";

// What the console answers, fed the input in two pieces.
fn answers(
    alloc: Global,
    console: &mut Console<Memory<'_, i32>, Memory<'_, i32>, Elder>,
    cut: usize,
) -> Result<Vec<u8>, AllocError> {
    let mut out = Vec::new(alloc);
    let (first, second) = INPUT.split_at(cut.min(INPUT.len()));
    console.feed(first, &mut out)?;
    console.feed(second, &mut out)?;
    console.finish(&mut out)?;
    Ok(out)
}

#[test]
fn cut_anywhere(rt: HostRuntime) -> Result<(), Fail> {
    for cut in 0..=INPUT.len() {
        let mut main = [0i32; 8];
        let mut draft = [0i32; 8];
        let mut console = Console::new(opened(rt.alloc(), &mut main, &mut draft)?);
        let answered = answers(rt.alloc(), &mut console, cut)?;
        let (_, _, _) = console.into_book().close();
        assert!(rt; answered.as_slice() == ANSWERS.as_slice());
    }
    Ok(())
}
