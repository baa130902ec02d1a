ghost use Rattle.std.specs.Prelude.{◌≡◌, ℕ, ◌<◌, ◌≤◌, ◌^◌, List, [], ◌∷◌, ◌++◌, length, true};
ghost use Rattle.std.specs.List.{AllByRecursion};
ghost use Rattle.gfx_caps.specs.declared.message.ClientPdu.TheVariants.{Ack};
ghost use Rattle.gfx_caps.specs.declared.offer.Offer.{Offer};
ghost use Rattle.gfx_caps.specs.declared.offer.TheConstants.{MOST_OFFERS};
ghost use Rattle.gfx_caps.specs.Offers.{advertised};
ghost use Rattle.gfx_state.specs.History.{Effect};
ghost use Rattle.gfx_client.specs.Replies.{replies, reply_in, stepped_by, stream_of, IsRead};
ghost use Rattle.gfx_client.specs.declared.replies.TheConstants.{EMPTY_REPLY};
ghost use Rattle.gfx_import.specs.Messages.{reply_text};
ghost use Rattle.gfx_segment.specs.Framing.{wrapped};
ghost use Rattle.gfx_segment.specs.Whole.{streamed};

/// A law, which does nothing when it is called: where two histories are joined, so are the replies to
/// them, and the reply to one more message is what a step says of it.
pub fn replies_go_on()
    ensures joined { (xs ys : List Effect) → replies (xs ++ ys) ≡ replies xs ++ replies ys }
    ensures next { (all : List Effect) (next : Effect) → replies (all ++ next ∷ []) ≡ replies all ++ reply_in (stepped_by next) }
{}

/// A law: what a client writes is read, whatever follows: each of its messages is one whole channel
/// message, and is read from that as what it is.
pub fn what_a_client_writes_is_read()
    ensures hello { (offers : List Offer) (more : List ℕ) → length offers ≤ MOST_OFFERS
        → AllByRecursion (λ (offer : Offer). offer.version < 2 ^ 32) offers → IsRead (advertised offers) more }
    ensures acknowledgement { (frame decoded : ℕ) (more : List ℕ) → frame < 2 ^ 32 → decoded < 2 ^ 32
        → IsRead (Ack 0 frame decoded) more }
{}

/// A law: the reply by which a server's end declines an offer of kept bitmaps is what a living client passes over.
pub fn a_declined_offer_is_passed_over()
    ensures reply { wrapped (reply_text 0) ≡ streamed EMPTY_REPLY }
    ensures passed { stream_of true EMPTY_REPLY ≡ [] }
{}
