// Request lines: the six permitted forms, and the place at which any other line goes wrong.
use request_line::read_request;
use schedule::Request;

// Whether the line is refused at the place.
fn refused_at(line: &[u8], place: usize) -> bool {
    read_request(line) == Err(place)
}

// Whether the line asks for the request.
fn asks(line: &[u8], request: Request<i32>) -> bool {
    read_request(line) == Ok(request)
}

#[test]
fn six_forms_are_permitted(rt: HostRuntime) {
    assert!(rt; asks(b"B 3", Request::Begin(3)));
    assert!(rt; asks(b"R 1 255", Request::Read(1, 255)));
    assert!(rt; asks(b"W 10 0 -7", Request::Write(10, 0, -7)));
    assert!(rt; asks(b"E 1000000", Request::End(1000000)));
    assert!(rt; asks(b"G 2", Request::GiveUp(2)));
    assert!(rt; asks(b"L 8", Request::GroupSize(8)));
}

#[test]
fn short_lines_stop_at_their_length(rt: HostRuntime) {
    assert!(rt; refused_at(b"", 0));
    assert!(rt; refused_at(b"B", 1));
    assert!(rt; refused_at(b"B ", 2));
    assert!(rt; refused_at(b"R 7", 3));
    assert!(rt; refused_at(b"R 7 ", 4));
    assert!(rt; refused_at(b"W 7 8", 5));
    assert!(rt; refused_at(b"W 7 8 ", 6));
    assert!(rt; refused_at(b"W 7 8 -", 7));
}

#[test]
fn one_byte_is_no_line(rt: HostRuntime) {
    assert!(rt; refused_at(b"b", 0));
    assert!(rt; refused_at(b"X", 0));
    assert!(rt; refused_at(b" ", 0));
    assert!(rt; refused_at(b"7", 0));
    assert!(rt; refused_at(&[0], 0));
    assert!(rt; refused_at(&[255], 0));
}

// The first 25 bytes of the longest line end before its height does; from 26 on each front is a line.
#[test]
fn fronts_of_the_longest_line(rt: HostRuntime) {
    let line = b"W 4294967295 4294967295 -2147483648";
    for n in 0..26 {
        assert!(rt; refused_at(&line[..n], n));
    }
    assert!(rt; asks(&line[..26], Request::Write(4294967295, 4294967295, -2)));
    assert!(rt; asks(&line[..27], Request::Write(4294967295, 4294967295, -21)));
    assert!(rt;
        asks(
            &line[..34],
            Request::Write(4294967295, 4294967295, -214748364),
        )
    );
    assert!(rt; asks(line, Request::Write(4294967295, 4294967295, -2147483648)));
}

#[test]
fn one_space_parts_the_words(rt: HostRuntime) {
    assert!(rt; refused_at(b" B 3", 0));
    assert!(rt; refused_at(b"B3", 1));
    assert!(rt; refused_at(b"B  3", 2));
    assert!(rt; refused_at(b"R 1  2", 4));
    assert!(rt; refused_at(b"R 1\t2", 3));
    assert!(rt; refused_at(b"W 1 2  3", 6));
}

#[test]
fn nothing_follows_the_last_word(rt: HostRuntime) {
    assert!(rt; refused_at(b"B 3 ", 3));
    assert!(rt; refused_at(b"B 3\r", 3));
    assert!(rt; refused_at(b"R 1 2 3", 5));
    assert!(rt; refused_at(b"W 1 2 3 ", 7));
    assert!(rt; refused_at(b"E 1x", 3));
}

#[test]
fn bytes_that_are_no_text(rt: HostRuntime) {
    assert!(rt; refused_at(&[66, 0], 1));
    assert!(rt; refused_at(&[66, 32, 0], 2));
    assert!(rt; refused_at(&[66, 32, 255], 2));
    assert!(rt; refused_at(&[66, 32, 51, 0], 3));
    assert!(rt; refused_at(&[66, 32, 51, 255], 3));
}

#[test]
fn numbers_end_at_their_bounds(rt: HostRuntime) {
    assert!(rt; asks(b"B 0", Request::Begin(0)));
    assert!(rt; asks(b"B 4294967295", Request::Begin(4294967295)));
    assert!(rt; refused_at(b"B 4294967296", 11));
    assert!(rt; refused_at(b"B 42949672950", 12));
    assert!(rt; refused_at(b"B 00", 3));
    assert!(rt; refused_at(b"B 07", 3));
    assert!(rt; refused_at(b"B -1", 2));
    assert!(rt; refused_at(b"B +1", 2));
}

#[test]
fn heights_end_at_their_bounds(rt: HostRuntime) {
    assert!(rt; asks(b"W 1 2 2147483647", Request::Write(1, 2, 2147483647)));
    assert!(rt; refused_at(b"W 1 2 2147483648", 15));
    assert!(rt; asks(b"W 1 2 -2147483648", Request::Write(1, 2, -2147483648)));
    assert!(rt; refused_at(b"W 1 2 -2147483649", 16));
    assert!(rt; asks(b"W 1 2 0", Request::Write(1, 2, 0)));
    assert!(rt; refused_at(b"W 1 2 -0", 7));
    assert!(rt; refused_at(b"W 1 2 -01", 7));
    assert!(rt; refused_at(b"W 1 2 --1", 7));
    assert!(rt; refused_at(b"W 1 2 00", 7));
}

// No number goes on past nine sevens.
#[test]
fn hundred_thousand_digits(rt: HostRuntime) {
    let mut line = [b'7'; 100002];
    line[0] = b'B';
    line[1] = b' ';
    assert!(rt; refused_at(&line, 11));
}
