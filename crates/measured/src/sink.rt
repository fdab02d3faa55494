// What a play tells, byte by byte.
ghost use Rattle.std.specs.Prelude.{◌≡◌, ◌/◌, ◌%◌, [], ◌∷◌, length};
ghost use Rattle.records.specs.Bytes.{word};
ghost use Rattle.measured.specs.Sinks.{told, left, Tells};

// Bytes that are filled from the front; what finds no place is left out.
// Its meaning takes any number: a place past the end stands at the end.
#[derive(Drop)]
pub(crate) struct Sink<'a> {
    out: &'a mut [u8],
    at: usize,
}

impl<'a> Sink<'a> {
    pub(crate) fn new(out: &'a mut [u8]) -> Sink<'a>
        ensures told { told result ≡ [] }
        ensures left { left result ≡ out.old }
        ensures same_reference { result.out.ghost_name ≡ out.entry.ghost_name }
    {
        Sink { out, at: 0 }
    }

    // How many bytes are filled.
    pub(crate) fn filled(&self) -> usize
        ensures { result ≡ length (told self.now) }
    {
        self.at.min(self.out.len())
    }

    pub(crate) fn put(&mut self, byte: u8)
        ensures { Tells self.old (byte ∷ []) self.new }
    {
        if self.at < self.out.len() {
            self.out[self.at] = byte;
            self.at += 1;
        }
    }

    pub(crate) fn put_all(&mut self, bytes: &[u8])
        ensures { Tells self.old bytes.now self.new }
    {
        for byte in bytes {
            self.put(*byte);
        }
    }

    // The two low bytes, the higher first.
    pub(crate) fn put_short(&mut self, number: usize)
        ensures { Tells self.old (number / 256 % 256 ∷ (number % 256 ∷ [])) self.new }
    {
        self.put((number / 256 % 256) as u8);
        self.put((number % 256) as u8);
    }

    // Four bytes, the highest first.
    pub(crate) fn put_word(&mut self, number: u32)
        ensures { Tells self.old (word number) self.new }
    {
        self.put_all(&number.to_be_bytes());
    }
}
