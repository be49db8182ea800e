// The edges of the three stores.
use byte_store::Bytes;
use store::{Memory, Outside, Store};
use window_store::Window;

// Three bytes left over, the least and the largest height.
#[test]
fn bytes_at_their_edges(rt: HostRuntime) {
    let mut bytes = [7u8; 11];
    let mut store = Bytes::new(&mut bytes);
    assert_eq!(rt; store.len(), 2);
    assert_eq!(rt; store.put(0, i32::MIN), Ok(()));
    assert_eq!(rt; store.put(1, i32::MAX), Ok(()));
    assert_eq!(rt; store.put(2, 5), Err(Outside));
    assert_eq!(rt; store.get(0), Ok(i32::MIN));
    assert_eq!(rt; store.get(1), Ok(i32::MAX));
    assert_eq!(rt; store.get(2), Err(Outside));
    assert_eq!(rt; bytes, [0x80, 0, 0, 0, 0x7f, 0xff, 0xff, 0xff, 7, 7, 7]);
}

#[test]
fn nothing_in_a_store_of_length_0(rt: HostRuntime) {
    let mut cells: [u8; 0] = [];
    let mut store = Memory::new(&mut cells);
    assert_eq!(rt; store.len(), 0);
    assert_eq!(rt; store.get(0), Err(Outside));
    assert_eq!(rt; store.put(0, 1), Err(Outside));
}

// A window that starts past the end, and start and count at the largest number.
#[test]
fn a_window_past_the_end_is_empty(rt: HostRuntime) {
    let mut cells = [1u8, 2, 3];
    let window = Window::new(Memory::new(&mut cells), 3, 4);
    assert_eq!(rt; window.len(), 0);
    assert_eq!(rt; window.get(0), Err(Outside));
    let (below, _, _) = window.into_parts();
    let mut far = Window::new(below, usize::MAX, usize::MAX);
    assert_eq!(rt; far.len(), 0);
    assert_eq!(rt; far.put(0, 9), Err(Outside));
    assert_eq!(rt; far.put(usize::MAX, 9), Err(Outside));
    let (below, _, _) = far.into_parts();
    assert_eq!(rt; Window::new(below, 1, usize::MAX).len(), 2);
}

// A window over a window, and a put beyond the window but inside the store below.
#[test]
fn a_window_over_a_window(rt: HostRuntime) {
    let mut cells = [0u8; 8];
    let outer = Window::new(Memory::new(&mut cells), 2, 4);
    let mut inner = Window::new(outer, 1, 2);
    assert_eq!(rt; inner.len(), 2);
    assert_eq!(rt; inner.put(0, 5), Ok(()));
    assert_eq!(rt; inner.put(1, 6), Ok(()));
    assert_eq!(rt; inner.put(2, 7), Err(Outside));
    assert_eq!(rt; inner.get(1), Ok(6));
    assert_eq!(rt; cells, [0, 0, 0, 5, 6, 0, 0, 0]);
}
