// A queue of up to eight messages. The receive FIFO, the transmit FIFO and the transmit history are each one.
#![tactic(auto)]

ghost use Rattle.std.specs.Prelude.{◌≡◌};
ghost use Rattle.fifo.specs.Queue.{eight_wait, none_waits};

// Sixteen bytes, as 000's Table 5 lays out a message; in a message to send, byte 1 is its tag. The default is what an
// empty place holds.
#[derive(Clone, Copy, Default)]
pub struct Message {
    pub bytes: [u8; 16],
}

// A ring of eight places, in fixed memory. Its first place and its count are plain bytes with no invariant: `in_range`
// answers of any, and `Device::proper` refuses those that no queue has.
#[derive(Clone, Copy)]
pub struct Fifo {
    pub items: [Message; 8],
    // The place of the oldest message; the others follow it, the first place after the last.
    pub first: u8,
    pub count: u8,
}

// By how many there are, for those who ask of a count alone.
pub fn eight_wait(count: u8) -> bool
    ensures { result ≡ eight_wait count }
{
    8 <= count
}

pub fn none_waits(count: u8) -> bool
    ensures { result ≡ none_waits count }
{
    count == 0
}

impl Fifo {
    ghost use Rattle.fifo.specs.Queue.{empty, full, is_empty, place, put, latest_place, place_over, put_over, take, next, latest, in_range};

    // Written out: of a derived default the proof didn't close.
    #[tactic(auto, using(base::specs::Pick::picks), unfolding(crate::specs::Queue::empty))]
    pub fn empty() -> Self
        ensures { result ≡ empty }
    {
        Self {
            items: [Message::default(); 8],
            first: 0,
            count: 0,
        }
    }

    pub fn full(self) -> bool
        ensures { result ≡ full self }
    {
        eight_wait(self.count)
    }

    pub fn is_empty(self) -> bool
        ensures { result ≡ is_empty self }
    {
        none_waits(self.count)
    }

    // The place so many steps behind the oldest message.
    pub fn place(self, steps: u16) -> usize
        ensures { result ≡ place self steps }
    {
        (self.first as usize + steps as usize) % 8
    }

    // The message comes last. A ninth is not stored.
    #[tactic(auto, using(base::specs::Pick::picks), unfolding(crate::specs::Queue::put))]
    pub fn put(self, m: Message) -> Self
        ensures { result ≡ put self m }
    {
        if self.full() {
            return self;
        }
        let mut p = self;
        p.items[p.place(p.count as u16)] = m;
        p.count += 1;
        p
    }

    // Seven steps on from the place behind the latest message, which is one step back.
    fn latest_place(self) -> usize
        ensures { result ≡ latest_place self }
    {
        self.place(self.count as u16 + 7)
    }

    // The place that a message takes: behind the others or, where eight wait, the latest one's.
    #[tactic(auto, using(base::specs::Pick::picks), unfolding(crate::specs::Queue::place_over))]
    pub fn place_over(self) -> usize
        ensures { result ≡ place_over self }
    {
        if self.full() {
            self.latest_place()
        } else {
            self.place(self.count as u16)
        }
    }

    // The message comes last; where eight wait, it takes the place of the latest.
    #[tactic(auto, using(base::specs::Pick::picks), unfolding(crate::specs::Queue::put_over))]
    pub fn put_over(self, m: Message) -> Self
        ensures { result ≡ put_over self m }
    {
        if self.full() {
            let mut p = self;
            p.items[self.latest_place()] = m;
            p
        } else {
            self.put(m)
        }
    }

    // Without the oldest message.
    #[tactic(auto, using(base::specs::Pick::picks), unfolding(crate::specs::Queue::take))]
    pub fn take(self) -> Self
        ensures { result ≡ take self }
    {
        if self.is_empty() {
            self
        } else {
            Self {
                first: self.place(1) as u8,
                count: self.count - 1,
                ..self
            }
        }
    }

    // The oldest message.
    #[tactic(auto, unfolding(crate::specs::Queue::next))]
    pub fn next(self) -> Message
        ensures { result ≡ next self }
    {
        self.items[self.place(0)]
    }

    // The latest message.
    #[tactic(auto, unfolding(crate::specs::Queue::latest))]
    pub fn latest(self) -> Message
        ensures { result ≡ latest self }
    {
        self.items[self.latest_place()]
    }

    // Whether the count and the place are ones that a queue of eight can have.
    #[tactic(auto, unfolding(crate::specs::Queue::in_range))]
    pub fn in_range(self) -> bool
        ensures { result ≡ in_range self }
    {
        (self.first < 8) & (self.count <= 8)
    }
}
