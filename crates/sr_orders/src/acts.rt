ghost use Rattle.std.specs.Prelude.{ℕ};
ghost use Rattle.sr_orders.specs.Acts.{AllReplay, AreLocal, JournalsReplay, OrdersAgree, PartsEnd, PartsReplay};

/// Acts on a whole `W` that has parts.
pub trait Acting<W> {
    ghost use Rattle.std.specs.Prelude.{ℕ};

    // the part that an act is on
    ghost part: { Self → ℕ };

    // what a part has of a whole
    ghost mask: { ℕ → W → W };

    // where an act fits a whole, or what a part has of it
    ghost fits: { Self → W → Type 0 };

    ghost apply: { Self → W → W };
}

/// What is recorded as a list of acts.
pub trait Recorded<A> {
    ghost use Rattle.std.specs.Prelude.{List};

    ghost acts: { Self → List A };
}

/// A law of acts, each of which is on one part: the parts by themselves tell whether acts replay, and how all ends.
pub fn parts_decide<W, A: Acting<W>>()
    ensures replay { (count : ℕ) → AreLocal count A.part A.mask A.fits A.apply → AllReplay count A.part A.mask A.fits A.apply }
    ensures only { (count : ℕ) → AreLocal count A.part A.mask A.fits A.apply → PartsReplay count A.part A.mask A.fits A.apply }
    ensures end { (count : ℕ) → AreLocal count A.part A.mask A.fits A.apply → PartsEnd count A.part A.mask A.fits A.apply }
{}

/// The law of orders: entries in another order, where each part finds its own in the same order, replay too and end
/// the same in each part.
pub fn orders_agree<W, A: Acting<W>, E: Recorded<A>>()
    ensures { (count : ℕ) → AreLocal count A.part A.mask A.fits A.apply → OrdersAgree count A.part A.mask A.fits A.apply E.acts }
{}

/// A law of journals: where each part has kept its entries of one history, and they replay there, the history replays.
pub fn journals_replay<W, A: Acting<W>, E: Recorded<A>>()
    ensures { (count : ℕ) → AreLocal count A.part A.mask A.fits A.apply → JournalsReplay count A.part A.mask A.fits A.apply E.acts }
{}
