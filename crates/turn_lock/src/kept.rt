ghost use Rattle.std.specs.Prelude.{◌≡◌, List, Option, length};

/// A `Kept` is a value that keeps a list of events. Its types are plain data, for contracts alone.
/// Its calls are in [`Runs`]: so an impl for a container may ask nothing of what is in it.
pub trait Kept {
    type Said;

    type Told;

    type Event;

    type Opening;

    ghost opening: { Self → Self.Opening };

    ghost events: { Self → List Self.Event };
    // How the value may answer: the opening, the events before, the call, its event, the answer.
    ghost relation: { Self.Opening → List Self.Event → Self.Said → Option Self.Event → Self.Told → Type 0 };

    fn events(&self) -> u64
        ensures { result ≡ length (events self.now) };
}

/// A `Runs` is a value with calls. It is apart from [`Kept`], so that an impl may have boxes in it.
pub trait Runs {
    type Call;

    type Answer;

    type Says;

    type Tells;

    ghost said: { Self.Call → Self.Says };

    ghost told: { Self.Answer → Self.Tells };

    ghost may: { Self → Self.Call → Type 0 };

    ghost does: { Self → Self.Call → Self.Answer → Self → Type 0 };

    fn apply(&mut self, call: Self::Call) -> Self::Answer
        requires { may self.old call }
        ensures { does self.old call result self.new };
}

/// A `Queries` is a value with calls by reference, of which many are made in one turn.
pub trait Queries {
    type Query;

    type Reply;

    type Says;

    type Tells;

    ghost asked: { Self.Query → Self.Says };

    ghost replied: { Self.Reply → Self.Tells };

    ghost can: { Self → Self.Query → Type 0 };

    ghost gives: { Self → Self.Query → Self.Reply → Self → Type 0 };

    fn answer(&mut self, query: &Self::Query) -> Self::Reply
        requires { can self.old query.now }
        ensures { gives self.old query.now result self.new };
}
