ghost use Rattle.std.specs.Prelude.{◌≡◌, ℕ, Bool, List, [], ◌++◌, Some, Ok};
ghost use Rattle.std.specs.List.{AllByRecursion, AllZip};
ghost use Rattle.gfx_base.specs.declared.refusal.Refusal.{Refusal};
ghost use Rattle.gfx_pdu.specs.declared.pdu.Pdu.{Pdu};
ghost use Rattle.gfx_state.specs.State.{State, started, fresh};
ghost use Rattle.gfx_state.specs.Same.{Same, Wider, StepsAlike};
ghost use Rattle.gfx_state.specs.Step.{step};
ghost use Rattle.gfx_state.specs.Sending.{all_steps, sent, IsCarried, standing, count_after};
ghost use Rattle.gfx_state.specs.Run.{Run, refuse, eats, run_of};
ghost use Rattle.gfx_state.specs.History.{history, applied_in, ended, spelled, ends_of, LeadsTo, coming, BringsAbout};
ghost use Rattle.gfx_state.specs.Cursor.{Cursor, Needs, Refuses, what_next, Reaches, before_all, given, run_at, waiting, settled};

/// However a stream is cut, the run of the whole goes on from the run of its front.
pub fn pieces_are_the_whole()
    ensures { (run : Run) (xs ys : List ℕ) → eats run (xs ++ ys) ≡ eats (eats run xs) ys }
{}

/// Behind a refusal nothing is read.
pub fn refusals_stay()
    ensures { (run : Run) (r : Refusal) (bytes : List ℕ) → run.refusal ≡ Some r → eats run bytes ≡ run }
{}

/// A client that is given bytes in pieces, and takes messages one by one, stays on the run of its
/// bytes: `settled` is the run that it will come to with no more bytes. Where it needs more, it is
/// there; where it refuses, so does the run, at the same message.
pub fn steps_keep_the_run()
    ensures start { settled before_all ≡ run_of [] }
    ensures pieces { (cursor : Cursor) (piece : List ℕ) → settled (given cursor piece) ≡ eats (settled cursor) piece }
    ensures steps { (from to : Cursor) (pdus : List Pdu) → Reaches from pdus to → settled to ≡ settled from }
    ensures needs { (cursor : Cursor) → what_next cursor ≡ Needs → settled cursor ≡ waiting cursor }
    ensures refuses { (cursor : Cursor) (r : Refusal) → what_next cursor ≡ Refuses r → settled cursor ≡ refuse (run_at cursor) r }
{}

/// Messages that are sent one after another, each in a channel message of its own, are read as those
/// messages: the run of their bytes is their steps, and stands between two channel messages again.
pub fn sent_messages_are_their_steps()
    ensures { (state last : State) (applied : ℕ) (pdus : List Pdu) → AllByRecursion IsCarried pdus → all_steps state pdus ≡ Ok last
        → eats (standing state applied) (sent pdus) ≡ standing last (count_after applied pdus) }
{}

/// What a state with the small limits accepts, one with the large limits accepts alike, and the two are
/// equal again but for that word. So a client with the large limits takes what a server with any limits
/// sent, and has the same surfaces, slots and ClearCodec stores, there and at the end of each frame.
pub fn wider_states_accept_alike()
    ensures start { (small : Bool) → Wider (started small) fresh }
    ensures one { (s after t : State) (pdu : Pdu) → step s pdu ≡ Ok after → Wider s t
        → (then : State) × (step t pdu ≡ Ok then) × Wider after then }
    ensures all { (s after t : State) (pdus : List Pdu) → all_steps s pdus ≡ Ok after → Wider s t
        → (then : State) × (all_steps t pdus ≡ Ok then) × Wider after then }
    ensures sent { (s after t : State) (applied : ℕ) (pdus : List Pdu) → AllByRecursion IsCarried pdus → all_steps s pdus ≡ Ok after → Wider s t
        → (then : State) × (eats (standing t applied) (sent pdus) ≡ standing then (count_after applied pdus)) × Wider after then }
    ensures ends { (s after t : State) (applied : ℕ) (pdus : List Pdu) → AllByRecursion IsCarried pdus → all_steps s pdus ≡ Ok after → Wider s t
        → AllZip Same (ends_of s pdus) (ended (standing t applied) (sent pdus)) }
    ensures same { (s t : State) → Wider s t → Same s t }
    ensures alike { StepsAlike Wider }
{}

/// What a stream has brought about, beside the run that it has come to: however it is cut, the history of
/// the whole goes on from that of its front, and so do the messages applied and the states at the ends of
/// frames. Behind a refusal there is none. A run's state is the one after its history.
pub fn histories_go_on()
    ensures pieces { (run : Run) (xs ys : List ℕ) → history run (xs ++ ys) ≡ history run xs ++ history (eats run xs) ys }
    ensures applied { (run : Run) (xs ys : List ℕ) → applied_in run (xs ++ ys) ≡ applied_in run xs ++ applied_in (eats run xs) ys }
    ensures ended { (run : Run) (xs ys : List ℕ) → ended run (xs ++ ys) ≡ ended run xs ++ ended (eats run xs) ys }
    ensures refused { (run : Run) (r : Refusal) (bytes : List ℕ) → run.refusal ≡ Some r → history run bytes ≡ [] }
    ensures leads { (run : Run) (bytes : List ℕ) → LeadsTo run (history run bytes) (eats run bytes) }
{}

/// The history of messages that are sent and accepted: all of them are applied, with the lengths of their
/// spellings, and the states at the ends of frames are those of their steps.
pub fn sent_messages_are_their_history()
    ensures applied { (state last : State) (applied : ℕ) (pdus : List Pdu) → AllByRecursion IsCarried pdus → all_steps state pdus ≡ Ok last
        → applied_in (standing state applied) (sent pdus) ≡ spelled pdus }
    ensures ended { (state last : State) (applied : ℕ) (pdus : List Pdu) → AllByRecursion IsCarried pdus → all_steps state pdus ≡ Ok last
        → ended (standing state applied) (sent pdus) ≡ ends_of state pdus }
    ensures more { (state mid : State) (xs ys : List Pdu) → all_steps state xs ≡ Ok mid → ends_of state (xs ++ ys) ≡ ends_of state xs ++ ends_of mid ys }
{}

/// A client that is given bytes in pieces, and takes messages one by one, makes the history of its bytes:
/// `coming` is what it will yet bring about with no more bytes, and its moves bring about the first of it.
/// Where it needs more, or refuses, nothing is left.
pub fn moves_make_the_history()
    ensures start { coming before_all ≡ [] }
    ensures pieces { (cursor : Cursor) (piece : List ℕ) → coming (given cursor piece) ≡ coming cursor ++ history (settled cursor) piece }
    ensures steps { (from to : Cursor) (pdus : List Pdu) → Reaches from pdus to → BringsAbout from to pdus }
    ensures needs { (cursor : Cursor) → what_next cursor ≡ Needs → coming cursor ≡ [] }
    ensures refuses { (cursor : Cursor) (r : Refusal) → what_next cursor ≡ Refuses r → coming cursor ≡ [] }
{}
