//! The word, its watches, and the four kinds of step on it: a load, the lesser of it and a value, and the splitting and
//! joining of watches, which leave it as it is.
ghost use Rattle.std.specs.Prelude.{◌≡◌, true, []};

use atomic_table::{Join, Play, Seat, Split, Table, TableRule};
use std::alloc::Global;
use std::collections::LinkedList;
use ttp_model::MemoryFault;

/// What a watch has seen and offered, and, for the opening watch, how many others were split from it and not yet joined.
/// No value of it is made: contracts alone speak of it.
pub struct View {
    pub opening: bool,
    pub live: bool,
    pub out: u64,
    pub seen: LinkedList<u32>,
    pub offers: LinkedList<u32>,
}

/// The rule that the word keeps.
pub struct Least;

impl TableRule<(), View, u32> for Least {
    ghost use Rattle.incumbent.specs.Word.{Kept, opened};

    ghost holds = { Kept };

    ghost first = { opened };
}

/// A load of the word.
struct Look;

impl Play<(), View> for Look {
    ghost use Rattle.incumbent.specs.Word.{Looks};

    ghost then = { Looks };
}

/// A value is offered.
struct Offer;

impl Play<(), View> for Offer {
    ghost use Rattle.incumbent.specs.Word.{Offers};

    ghost then = { Offers };
}

/// Watches are split from the opening one, and joined to it.
struct Parts;

impl Split<View> for Parts {
    ghost use Rattle.incumbent.specs.Word.{one_more_out, newcomer};

    ghost left = { one_more_out };

    ghost right = { newcomer };
}

impl Join<View> for Parts {
    ghost use Rattle.incumbent.specs.Word.{taken_in, spent};

    ghost both = { taken_in };

    ghost spent = { spent };
}

/// The least of a first value and of all values that were offered.
#[derive(Drop)]
pub struct Incumbent {
    table: Table<(), View, u32, Least, Global>,
    ghost one_word: { table.shared.table_id.words ≡ 1 },
    ghost no_slot: { table.shared.table_id.slots ≡ 0 },
}

/// The right to look at an incumbent and to offer values, with what was seen and offered. It has no bytes.
#[derive(Drop)]
pub struct Watch {
    seat: Seat<(), View>,
    ghost live: { seat.me.0.live ≡ true },
    ghost empty: { seat.me.1 ≡ [] },
}

impl Incumbent {
    ghost use Rattle.std.specs.Prelude.{◌≡◌, ◌+◌, ◌-◌, ◌≤◌, [], ◌∷◌, ◌++◌, All, IfOk, IsOk};
    ghost use Rattle.incumbent.specs.Watch.{first_value, offers, out_count, seen, IsBelowView, IsLeast, IsOpening, IsOther, IsSameWatch, IsWatchOf};

    /// A word that holds `top`, in ticks, and its opening watch.
    pub fn begin(alloc: Global, top: u32) -> Result<(Incumbent, Watch), MemoryFault>
        ensures word { IfOk result (λ r. first_value r.0 ≡ top) }
        ensures opening { IfOk result (λ r. IsOpening r.0 r.1) }
        ensures alone { IfOk result (λ r. out_count r.1 ≡ 0) }
        ensures seen { IfOk result (λ r. seen r.1 ≡ top ∷ []) }
        ensures offers { IfOk result (λ r. offers r.1 ≡ []) }
    {
        let (table, seat) = Table::of_words(alloc, &[u64::from(top)], &top)?;
        Ok((Incumbent { table }, Watch { seat }))
    }

    /// The least value so far. It never waits.
    pub fn look(&self, watch: &mut Watch) -> u32
        requires { IsWatchOf self.now watch.old }
        ensures same { IsSameWatch watch.old watch.new }
        ensures below { IsBelowView watch.old result }

        ensures seen { seen watch.new ≡ seen watch.old ++ result ∷ [] }
        ensures offers { offers watch.new ≡ offers watch.old }
    {
        self.table.shared.load::<Look>(&mut watch.seat, 0) as u32
    }

    /// The least value so far, this one included. It never waits.
    pub fn offer(&self, watch: &mut Watch, value: u32) -> u32
        requires { IsWatchOf self.now watch.old }
        ensures same { IsSameWatch watch.old watch.new }
        ensures value { result ≤ value }
        ensures below { IsBelowView watch.old result }

        ensures seen { seen watch.new ≡ seen watch.old ++ result ∷ [] }
        ensures offers { offers watch.new ≡ offers watch.old ++ value ∷ [] }
    {
        let found = self
            .table
            .shared
            .fetch_min::<Offer>(&mut watch.seat, 0, u64::from(value));
        value.min(found as u32)
    }

    /// Another watch, which begins with all that the opening watch has seen or offered as seen, and has offered nothing.
    /// It takes no memory today, and so is never refused any.
    pub fn split(&self, _alloc: Global, watch: &mut Watch) -> Result<Watch, MemoryFault>
        requires { IsOpening self.now watch.old }
        ensures opening { IfOk result (λ _. IsOpening self.now watch.new) }
        ensures out { IfOk result (λ _. out_count watch.new ≡ out_count watch.old + 1) }
        ensures seen { IfOk result (λ _. seen watch.new ≡ seen watch.old) }
        ensures offers { IfOk result (λ _. offers watch.new ≡ offers watch.old) }

        ensures other { IfOk result (IsOther self.now) }
        ensures other_seen { IfOk result (λ other. seen other ≡ seen watch.old ++ offers watch.old) }
        ensures other_offers { IfOk result (λ other. offers other ≡ []) }

        ensures never { IsOk result }
    {
        let seat = self.table.shared.split_seat::<Parts>(&mut watch.seat);
        Ok(Watch { seat })
    }

    /// Takes another watch in: the opening one has then seen and offered what it has.
    pub fn join(&self, watch: &mut Watch, other: Watch)
        requires opening { IsOpening self.now watch.old }
        requires other { IsWatchOf self.now other }
        ensures opening { IsOpening self.now watch.new }
        ensures out { out_count watch.new ≡ out_count watch.old - 1 }
        ensures seen { seen watch.new ≡ seen watch.old ++ seen other }
        ensures offers { offers watch.new ≡ offers watch.old ++ offers other }
    {
        let Watch { seat } = other;
        self.table.shared.join_seat::<Parts>(&mut watch.seat, seat);
    }

    /// The least of the first value and of all offers, which is at most every answer that any watch got.
    pub fn close(self, watch: Watch) -> u32
        requires opening { IsOpening self watch }
        requires joined { out_count watch ≡ 0 }
        ensures least { IsLeast (first_value self ∷ offers watch) result }
        ensures seen { All (λ x. result ≤ x) (seen watch) }
    {
        let Incumbent { table } = self;
        let Watch { seat } = watch;
        let closed = table.close_with(seat);
        let word = closed.word(0);
        closed.free();
        word as u32
    }
}
