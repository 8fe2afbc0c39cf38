// Packets on the card and back, and what is counted in them.

pub const CARD_LEN: usize = 8192;

// What is counted of an export.
#[derive(Clone, Copy, Default)]
pub struct Counts {
    pub packets: u32,
    pub samples: u32,
    pub flat: u32,
}

impl Counts {
    // One packet more, the front of these bytes.
    pub fn count(&mut self, packet: &[u8], len: u32) {
        self.packets = self.packets.wrapping_add(1);
        let len = packet.len().min(len as usize);
        for pair in packet[..len].chunks_exact(2) {
            self.samples = self.samples.wrapping_add(1);
            if is_flat(i16::from_le_bytes([pair[0], pair[1]])) {
                self.flat = self.flat.wrapping_add(1);
            }
        }
    }
}

// Is the sample at full scale?
fn is_flat(sample: i16) -> bool {
    sample == i16::MAX || sample <= i16::MIN + 1
}

// A block goes to its place.
fn stored(block: &[u8; 512], number: u32, card: &mut [u8; CARD_LEN]) {
    if number < 16 {
        ring::marks::copy_in(card, number * 512, block);
    }
}

// Writes a packet of endpoint 1, the front of these bytes; it runs on over at most two block ends.
pub fn put_front(
    writer: &mut [u32; 4],
    block: &mut [u8; 512],
    card: &mut [u8; CARD_LEN],
    bytes: &[u8],
    len: u16,
) {
    let n = len as usize;
    if n <= bytes.len() {
        put(writer, block, card, &bytes[..n]);
    }
}

fn put(writer: &mut [u32; 4], block: &mut [u8; 512], card: &mut [u8; CARD_LEN], packet: &[u8]) {
    for _ in 0..4 {
        let number = writer[0];
        let word = survey_c::usbhs_card_write(writer, block, 1, packet);
        if word / 256 % 2 == 1 {
            stored(block, number, card);
        }
        if word / 512 % 2 == 1 {
            return;
        }
    }
}

// The last block. Answers the stream's length.
pub fn finish(writer: &[u32; 4], block: &mut [u8; 512], card: &mut [u8; CARD_LEN]) -> usize {
    let number = writer[0];
    if number > 15 {
        return 0;
    }
    let word = survey_c::usbhs_card_finish(writer, block);
    if word / 256 % 2 == 1 {
        stored(block, number, card);
        return number as usize * 512 + 512;
    }
    number as usize * 512
}

// What the packets that the reader gives come to, of a card on which the stream has so many bytes.
pub fn read_back(card: &[u8], len: usize) -> Counts {
    if len <= card.len() {
        return read(&card[..len]);
    }
    read(card)
}

fn next(stream: &[u8], place: &mut usize, endpoint: &mut u32, room: &mut [u8; 1024]) -> u64 {
    survey_c::usbhs_card_next(stream, place, endpoint, room)
}

fn read(stream: &[u8]) -> Counts {
    let mut c = Counts::default();
    let mut room = [0u8; 1024];
    let mut place: usize = 0;
    let mut endpoint: u32 = 0;
    survey_c::usbhs_card_start(stream, &mut place);
    for _ in 0..4096 {
        let word = next(stream, &mut place, &mut endpoint, &mut room);
        if word % 16 != 7 {
            return c;
        }
        c.count(&room, (word / 256 % 65536) as u32);
    }
    c
}
