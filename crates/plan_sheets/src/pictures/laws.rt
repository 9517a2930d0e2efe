//! What follows from the definitions alone. These functions do nothing: their contracts are the laws.

ghost use Rattle.std.specs.Prelude.{◌≡◌, ◌≢◌, ℕ, ◌+◌, ◌<◌, ◌≤◌, ◌⊎◌, ◌↔◌, ◌∷◌, [], IsTrue, length, slice_index};
ghost use Rattle.ttp_model.specs.declared.plan.Plan.{Plan};
ghost use Rattle.ttp_model.specs.Instance.{Instance, message_at, node_of, process_at};
ghost use Rattle.ttp_model.specs.Rules.{IsInstance};
ghost use Rattle.ttp_model.specs.Plans.{IsValid, end_of, start_of};
ghost use Rattle.ttp_model.specs.Slots.{duration, slot_start};
ghost use Rattle.plan_sheets.specs.Slots.{slot_of};
ghost use Rattle.plan_sheets.specs.declared.pictures.canvas.Canvas.{Canvas};
ghost use Rattle.plan_sheets.specs.declared.pictures.picture.Shown.TheVariants.{All, Used};
ghost use Rattle.plan_sheets.specs.declared.pictures.slots.Load.TheVariants.{Nothing};
ghost use Rattle.plan_sheets.specs.Canvas.{place_of};
ghost use Rattle.plan_sheets.specs.Deadlines.{deadline_of};
ghost use Rattle.plan_sheets.specs.DeliveryLines.{LeadsOn, delivery_of, sending_of};
ghost use Rattle.plan_sheets.specs.Names.{name_room};
ghost use Rattle.plan_sheets.specs.Processes.{process_rectangle};
ghost use Rattle.plan_sheets.specs.Shapes.{EndsBy, rectangles_of};
ghost use Rattle.plan_sheets.specs.SlotRectangles.{has_load, slot_rectangle};

/// Where all slots are shown each has just one rectangle, and where those in use are shown each of these, and no other. It stands in
/// its channel's row, begins when the slot does, and is as long; that of a process stands in its node's row, begins at its start, and
/// is as long as it runs.
pub fn each_slot_and_process_has_its_rectangle()
    ensures each { (i : Instance) (plan : Plan) (r k c : ℕ)
        → rectangles_of All (slot_of i plan r k c) ≡ slot_rectangle (slot_of i plan r k c) ∷ [] }
    ensures used { (i : Instance) (plan : Plan) (r k c : ℕ) → 0 < (slot_of i plan r k c).used
        → rectangles_of Used (slot_of i plan r k c) ≡ slot_rectangle (slot_of i plan r k c) ∷ [] }
    ensures unused { (i : Instance) (plan : Plan) (r k c : ℕ) → (slot_of i plan r k c).used ≡ 0
        → rectangles_of Used (slot_of i plan r k c) ≡ [] }
    ensures row { (i : Instance) (plan : Plan) (r k c : ℕ)
        → (slot_rectangle (slot_of i plan r k c)).row ≡ (slot_of i plan r k c).channel }
    ensures start { (i : Instance) (plan : Plan) (r k c : ℕ)
        → (slot_rectangle (slot_of i plan r k c)).start ≡ slot_start i.cluster plan.order plan.caps (slice_index plan.order k) r }
    ensures length { (i : Instance) (plan : Plan) (r k c : ℕ)
        → (slot_rectangle (slot_of i plan r k c)).length ≡ duration i.cluster plan.caps (slice_index plan.order k) }
    ensures process_row { (i : Instance) (plan : Plan) (p : ℕ) → (process_rectangle i plan p).row ≡ i.cluster.channels + node_of i p }
    ensures process_start { (i : Instance) (plan : Plan) (p : ℕ) → (process_rectangle i plan p).start ≡ start_of plan p }
    ensures process_length { (i : Instance) (plan : Plan) (p : ℕ) → (process_rectangle i plan p).length ≡ (process_at i p).wcet }
{}

/// A slot is drawn as one that carries nothing just where no message is sent in it.
pub fn slots_without_messages_are_hollow()
    ensures { (i : Instance) (plan : Plan) (r k c : ℕ) → IsInstance i
        → IsTrue (has_load Nothing (slot_of i plan r k c)) ↔ ((slot_of i plan r k c).messages ≡ []) }
{}

/// Rectangles of one row don't overlap: of two slots the earlier ends before the later begins, and of two processes of one row one
/// ends before the other begins.
pub fn rectangles_are_apart()
    ensures slots { (i : Instance) (plan : Plan) (j k r s c : ℕ) → IsValid i plan → j < length i.nodes → k < length i.nodes
        → (r < s) ⊎ ((r ≡ s) × (j < k)) → EndsBy (slot_rectangle (slot_of i plan r j c)) (slot_rectangle (slot_of i plan s k c)) }
    ensures processes { (i : Instance) (plan : Plan) (p q : ℕ) → IsValid i plan → p < length i.processes → q < length i.processes
        → p ≢ q → (process_rectangle i plan p).row ≡ (process_rectangle i plan q).row
        → EndsBy (process_rectangle i plan p) (process_rectangle i plan q) ⊎ EndsBy (process_rectangle i plan q) (process_rectangle i plan p) }
{}

/// The names of a slot end before the next slot of its row that carries a message, or just there.
pub fn names_are_apart()
    ensures { (canvas : Canvas) (i : Instance) (plan : Plan) (j k r s c : ℕ) → IsInstance i → IsValid i plan
        → j < length i.nodes → k < length i.nodes → (r < s) ⊎ ((r ≡ s) × (j < k)) → 0 < (slot_of i plan s k c).used
        → EndsBy (name_room canvas i plan (slot_of i plan r j c)) (slot_rectangle (slot_of i plan s k c)) }
{}

/// The line of a deadline doesn't stand before the end of its process.
pub fn deadlines_are_behind_ends()
    ensures { (i : Instance) (plan : Plan) (p : ℕ) → IsValid i plan → p < length i.processes
        → end_of i plan p ≤ (deadline_of i p).from }
{}

/// No line of a message leads to the left, in ticks and in pixels.
pub fn lines_lead_on()
    ensures sending { (i : Instance) (plan : Plan) (m : ℕ) → IsValid i plan → m < length i.messages → LeadsOn (sending_of i plan m) }
    ensures delivery { (i : Instance) (plan : Plan) (m k : ℕ) → IsValid i plan → m < length i.messages
        → k < length (message_at i m).receivers → LeadsOn (delivery_of i plan m (slice_index (message_at i m).receivers k)) }
    ensures pixels { (c : Canvas) (a b : ℕ) → 0 < c.cycle → a ≤ b → place_of c a ≤ place_of c b }
{}
