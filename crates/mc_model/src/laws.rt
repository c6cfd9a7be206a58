//! What holds of every request that a server acts on. Each function here does nothing: its contract is a law over
//! `specs/Act.antt`, and `Cache::act` does what that file says.

ghost use Rattle.mc_model.specs.ActLaws.{
  OtherKeysStay,
  RepliesFit,
  BodiesStayShort,
  JoinedBodiesAddUp,
  DeletedIsGone,
  ReportedVersionIsMade,
  MadeVersionIsReported,
  AnsweredNumberIsThere,
  OnlyCountsChoose,
  OnlyDoubtfulAreChosen,
  PaddingIsUnseen,
};

/// A request changes at most the item at its own key.
#[tactic(auto, using(crate::proofs::Acts::other_keys_stay))]
pub fn other_keys_stay()
    ensures { OtherKeysStay }
{}

/// A server answers each request with a reply that the protocol has for it, as long as the body of the item at its
/// key is within the limit.
#[tactic(auto, using(crate::proofs::Acts::replies_fit))]
pub fn replies_fit()
    ensures { RepliesFit }
{}

/// The body of the item at a request's key stays within the limit, where the request's own body is: under each verb but
/// `append` and `prepend`, and under these it grows by the request's body at most.
#[tactic(auto, using(crate::proofs::Acts::bodies_stay_short, crate::proofs::Acts::joined_bodies_add_up))]
pub fn bodies_stay_short()
    ensures alone { BodiesStayShort }
    ensures both { JoinedBodiesAddUp }
{}

/// After a delete nothing is at the key, whatever the reply.
#[tactic(auto, using(crate::proofs::Acts::deleted_is_gone))]
pub fn deleted_is_gone()
    ensures { DeletedIsGone }
{}

/// A version is made exactly where the reply is that it is stored, or a number. It has the number given, and is what is
/// at the key afterwards.
#[tactic(auto, using(crate::proofs::Acts::reported_version_is_made, crate::proofs::Acts::made_version_is_reported))]
pub fn versions_are_reported()
    ensures makes { ReportedVersionIsMade }
    ensures reports { MadeVersionIsReported }
{}

/// The number that `incr` or `decr` answers is what the body at the key then says.
#[tactic(auto, using(crate::proofs::Acts::answered_number_is_there))]
pub fn answered_numbers_are_there()
    ensures { AnsweredNumberIsThere }
{}

/// A choice that `protocol.txt` doesn't leave to the server changes nothing: no verb but `incr` and `decr` has one, only
/// a body that one server reads and another refuses lets it choose, and no reply shows whether a number was padded.
#[tactic(auto, using(crate::proofs::Choices::of_verbs, crate::proofs::Choices::of_bodies, crate::proofs::Choices::of_replies))]
pub fn only_counts_choose()
    ensures verbs { OnlyCountsChoose }
    ensures bodies { OnlyDoubtfulAreChosen }
    ensures replies { PaddingIsUnseen }
{}
