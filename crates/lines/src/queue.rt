ghost use Rattle.std.specs.Prelude.{◌≡◌, ◌+◌, ◌%◌, ◌^◌, [], length};
ghost use Rattle.lines.specs.Queues.{held, posted, room, start_at};
ghost use Rattle.lines.specs.Ring.{first, rest, pushed};

// A queue over a lent buffer: the oldest comes first, and what is posted while the buffer is full is dropped. Every post is counted.
// It is a ring of its own, since it takes no heap and its caller says at run time how many places it has.
// Its meaning takes any numbers: a head past the end stands at the start, and no more is held than the buffer has places.
// That is no invariant here: the checker refuses a struct with one that holds a `&mut` where it is passed by value and then changed.
#[derive(Drop)]
pub struct Queue<'a, T> {
    buffer: &'a mut [T],
    // where the oldest lies, how many are held, and how many were posted
    head: usize,
    len: usize,
    posts: u64,
}

impl<'a, T: Copy> Queue<'a, T> {
    // An empty queue; what the buffer holds does not matter, and stays until a push writes over it.
    pub fn new(buffer: &'a mut [T]) -> Queue<'a, T>
        ensures held { held result ≡ [] }
        ensures posted { posted result ≡ 0 }
        ensures room { room result ≡ length buffer.old }
        ensures buffer { result.buffer.now ≡ buffer.old }
    {
        Queue {
            buffer,
            head: 0,
            len: 0,
            posts: 0,
        }
    }

    // How many are held.
    pub fn len(&self) -> usize
        ensures { result ≡ length (held self.now) }
    {
        self.len.min(self.buffer.len())
    }

    // How many it has places for.
    pub fn room(&self) -> usize
        ensures { result ≡ room self.now }
    {
        self.buffer.len()
    }

    // How many were posted, wrapping.
    pub fn posts(&self) -> u64
        ensures { result ≡ posted self.now }
    {
        self.posts
    }

    // Where the oldest lies.
    fn start(&self) -> usize
        ensures { result ≡ start_at self.now.head (room self.now) }
    {
        if self.head < self.buffer.len() {
            self.head
        } else {
            0
        }
    }

    // One more behind the others, or dropped where the buffer is full.
    pub fn push(&mut self, x: T)
        ensures held { held self.new ≡ pushed (room self.old) (held self.old) x }
        ensures posted { posted self.new ≡ (posted self.old + 1) % 2 ^ 64 }
        ensures room { room self.new ≡ room self.old }
    {
        self.posts = self.posts.wrapping_add(1);
        if self.len < self.buffer.len() {
            let head = self.start();
            let left = self.buffer.len() - head;
            // a test and no remainder, which would divide at each push
            let at = if self.len < left {
                head + self.len
            } else {
                self.len - left
            };
            self.buffer[at] = x;
            self.head = head;
            self.len += 1;
        }
    }

    // The oldest, taken out, or none.
    pub fn pop(&mut self) -> Option<T>
        ensures taken { result ≡ first (held self.old) }
        ensures held { held self.new ≡ rest (held self.old) }
        ensures posted { posted self.new ≡ posted self.old }
        ensures room { room self.new ≡ room self.old }
    {
        let len = self.len();
        if len == 0 {
            return None;
        }
        let head = self.start();
        let x = self.buffer[head];
        self.head = head + 1;
        self.len = len - 1;
        Some(x)
    }
}

mod carrying;
