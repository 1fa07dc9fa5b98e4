// The parts of a record, one behind another (sim/README.md, 'Vector files').

// A list's length has at most five digits, and no image, page or buffer of the machine's in a record is longer.
pub(crate) const BYTES: usize = 100_000;

// Room for the parts of a record that are lent, by how many it has: the program asks for no memory.
pub(crate) const TWO_PARTS: usize = 200_000;

pub(crate) const THREE_PARTS: usize = 300_000;

pub(crate) const FOUR_PARTS: usize = 400_000;

pub(crate) const FIVE_PARTS: usize = 500_000;

// More numbers than any list of addresses or places has.
pub(crate) const WORDS: usize = 4_096;

// So many bytes of one value, or BYTES if that is less, at the front of a room, and the room that is left.
pub(crate) fn fill(room: &mut [u8], size: usize, byte: u8) -> (&mut [u8], &mut [u8]) {
    let size = size.min(BYTES).min(room.len());
    let (bytes, room) = room.split_at_mut(size);
    bytes.fill(byte);
    (bytes, room)
}

// The same bytes once more, and the room that is left.
pub(crate) fn copy<'b>(room: &'b mut [u8], bytes: &[u8]) -> (&'b mut [u8], &'b mut [u8]) {
    let size = bytes.len().min(room.len());
    let (again, room) = room.split_at_mut(size);
    again.copy_from_slice(&bytes[..size]);
    (again, room)
}

// What is left of a vector file. Each method takes a part from its front. Once the file, or the buffer for a part, does
// not hold it, nothing is left: every part from then on is 0 or empty.
#[derive(Drop)]
pub(crate) struct Records<'a> {
    rest: Option<&'a [u8]>,
    // The file has long images and marks.
    long: bool,
}

impl<'a> Records<'a> {
    // All of a file.
    pub(crate) fn new(file: &'a [u8], long: bool) -> Self {
        Records {
            rest: Some(file),
            long,
        }
    }

    // Whether some part was not there.
    pub(crate) fn is_broken(&self) -> bool {
        self.rest.is_none()
    }

    // Whether all parts were there, and nothing is behind them.
    pub(crate) fn is_done(&self) -> bool {
        self.rest.is_some_and(|rest| rest.is_empty())
    }

    // So many bytes.
    fn take(&mut self, size: usize) -> &'a [u8] {
        let Some((part, rest)) = self.rest.and_then(|rest| rest.split_at_checked(size)) else {
            self.rest = None;
            return &[];
        };
        self.rest = Some(rest);
        part
    }

    // So many bytes as an array.
    fn take_array<const N: usize>(&mut self) -> [u8; N] {
        self.take(N).first_chunk().copied().unwrap_or([0; N])
    }

    // Numbers, the low byte first.
    pub(crate) fn take_u64(&mut self) -> u64 {
        u64::from_le_bytes(self.take_array())
    }

    pub(crate) fn take_u32(&mut self) -> u32 {
        u32::from_le_bytes(self.take_array())
    }

    fn take_u16(&mut self) -> u16 {
        u16::from_le_bytes(self.take_array())
    }

    fn take_u8(&mut self) -> u8 {
        u8::from_le_bytes(self.take_array())
    }

    // Bytes behind their length.
    pub(crate) fn take_bytes(&mut self) -> &'a [u8] {
        let size = self.take_u32();
        self.take(size as usize)
    }

    // So many bytes, which replace those of a buffer from an offset on.
    pub(crate) fn take_over(&mut self, buffer: &mut [u8], offset: usize, size: usize) {
        let part = self.take(size);
        let place = buffer
            .get_mut(offset..)
            .and_then(|behind| behind.get_mut(..part.len()));
        match place {
            Some(place) => place.copy_from_slice(part),
            None => self.rest = None,
        }
    }

    // Pieces, which replace bytes of a buffer.
    pub(crate) fn take_pieces(&mut self, buffer: &mut [u8]) {
        for _ in 0..self.take_u16() {
            let offset = self.take_u16();
            let size = self.take_u16();
            self.take_over(buffer, offset as usize, size as usize);
        }
    }

    // Fills a buffer with bytes that grow by the same number, modulo 256, and takes pieces.
    fn take_filled(&mut self, buffer: &mut [u8]) {
        let mut byte = self.take_u8();
        let by = self.take_u8();
        for place in buffer.iter_mut() {
            *place = byte;
            byte = byte.wrapping_add(by);
        }
        self.take_pieces(buffer);
    }

    // A buffer, and the room that is left.
    pub(crate) fn take_buffer<'b>(&mut self, room: &'b mut [u8]) -> (&'b mut [u8], &'b mut [u8]) {
        let size = self.take_u16();
        let (buffer, room) = fill(room, size as usize, 0);
        self.take_filled(buffer);
        (buffer, room)
    }

    // An image or marks, and the room that is left: bytes behind their length or, in a file of long ones, a long buffer.
    pub(crate) fn take_whole<'b>(&mut self, room: &'b mut [u8]) -> (&'b mut [u8], &'b mut [u8]) {
        let size = self.take_u32() as usize;
        let (whole, room) = fill(room, size, 0);
        if self.long {
            self.take_filled(whole);
        } else {
            self.take_over(whole, 0, size);
        }
        (whole, room)
    }

    // Marks that a call must leave: all of them or, in a file of long ones, a long buffer.
    pub(crate) fn take_after(&mut self, after: &mut [u8]) {
        if self.long {
            let size = after.len().min(self.take_u32() as usize);
            self.take_filled(&mut after[..size]);
        } else {
            self.take_over(after, 0, after.len());
        }
    }

    // So many numbers of four bytes, which replace the first of a list.
    pub(crate) fn take_words(&mut self, list: &mut [u32], size: usize) {
        match list.get_mut(..size) {
            Some(words) => words.fill_with(|| self.take_u32()),
            None => self.rest = None,
        }
    }
}
