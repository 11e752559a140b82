//! Examples of ring changes that meet all five facts of virtual synchrony, and of wrong lives that break one of them.
//!
//! Rules: Outputs 11

ghost use Rattle.std.specs.Prelude.{◌≡◌, true, ◌&&◌};
ghost use Rattle.ring_core_proof.specs.ChangedRing.{changed};
ghost use Rattle.ring_core_proof.specs.FirstRings.{three_after, lone_events};
ghost use Rattle.ring_core_proof.specs.Worlds.{run, unformed};
ghost use Rattle.ring_synchrony_proof.specs.Changes.{IsNode};
ghost use Rattle.ring_synchrony_proof.specs.Synchrony.{HasSameText, DeliversSafely, DeliversAlike, DeliversOwn, HasConfigurations};
ghost use Rattle.ring_synchrony_proof.specs.Tests.{has_same_text, delivers_safely, delivers_alike, have_configurations, delivers_own, is_virtually_synchronous};
ghost use Rattle.ring_synchrony_proof.specs.WrongLives.{right_lives, lacks_delivery, rest_out_of_order, own_message_lost};
ghost use Rattle.ring_synchrony_proof.specs.WrongLives.{without_own_node, never_got, never_installed, left_without};
ghost use Rattle.ring_synchrony_proof.specs.WrongLives.{agreed_left_out};
ghost use Rattle.ring_synchrony_proof.specs.WrongLives.{safe_falls, agreed_as_another, rest_as_another};
ghost use Rattle.ring_synchrony_proof.specs.WrongLives.{named_apart, names_a_stranger};
ghost use Rattle.ring_synchrony_proof.specs.WrongLives.{companion_left_out, joined_by_an_outsider, joined_after_another};
ghost use Rattle.ring_synchrony_proof.specs.WrongLives.{named_alone, named_as_shared, ends_on_the_way};

/// States examples of runs that are virtually synchronous.
///
/// Two processors change rings with a call in flight, three gather and install their first ring, and one is alone. The
/// lives from which the wrong examples below are made pass too.
///
/// Rules: Outputs 11
pub fn worked_changes()
    ensures two { is_virtually_synchronous changed ≡ true }
    ensures three { is_virtually_synchronous (three_after 40) ≡ true }
    ensures one { is_virtually_synchronous (run (unformed 1) lone_events) ≡ true }
    ensures right { is_virtually_synchronous right_lives ≡ true }
{}

/// States an example of wrong lives: one transitional member lacks a delivery that the other has.
///
/// They break `same_deliveries` and meet the other four facts of virtual synchrony.
///
/// Rules: Outputs 11
pub fn a_companion_lacks_a_delivery()
    ensures refused { DeliversAlike lacks_delivery → ⊥ }
    ensures others { (has_same_text lacks_delivery
        && (delivers_safely lacks_delivery && (have_configurations lacks_delivery && delivers_own lacks_delivery)))
        ≡ true }
{}

/// States an example of a wrong life: the `Rest` messages of the old ring come out of order.
///
/// It breaks `same_text` and meets the other four facts of virtual synchrony.
///
/// Rules: Outputs 5 and 11
pub fn the_rest_is_out_of_order()
    ensures refused { HasSameText rest_out_of_order → ⊥ }
    ensures others { (delivers_safely rest_out_of_order
        && (delivers_alike rest_out_of_order && (have_configurations rest_out_of_order
        && delivers_own rest_out_of_order))) ≡ true }
{}

/// States an example of two wrong lives: calls within the front aren't given as `Agreed`.
///
/// It breaks `same_text` and meets the other four facts of virtual synchrony.
///
/// Rules: Outputs 3 and 11
pub fn an_agreed_call_is_left_out()
    ensures refused { HasSameText agreed_left_out → ⊥ }
    ensures others { (delivers_safely agreed_left_out
        && (delivers_alike agreed_left_out && (have_configurations agreed_left_out && delivers_own agreed_left_out)))
        ≡ true }
{}

/// States examples of wrong lives: a member of the ring misses a message that another has delivered as safe.
///
/// It never received the message, or never installed the ring, or left the ring without delivering the message. The
/// lives break `safe_delivery`. The first and the last meet the other four facts of virtual synchrony.
///
/// Rules: Outputs 11
pub fn a_safe_delivery_is_missed()
    ensures never_got { DeliversSafely never_got → ⊥ }
    ensures never_installed { DeliversSafely never_installed → ⊥ }
    ensures left_without { DeliversSafely left_without → ⊥ }
    ensures others { (has_same_text never_got && (delivers_alike never_got && (have_configurations never_got && delivers_own never_got))) ≡ true }
    ensures others_of_left { (has_same_text left_without
        && (delivers_alike left_without && (have_configurations left_without && delivers_own left_without))) ≡ true }
{}

/// States an example of wrong lives: a processor's own message is lost at a ring change, at all processors alike.
///
/// They break `own_delivery` and meet the other four facts of virtual synchrony.
///
/// Rules: Outputs 11
pub fn an_own_message_is_lost()
    ensures refused { DeliversOwn own_message_lost → ⊥ }
    ensures others { (has_same_text own_message_lost
        && (delivers_safely own_message_lost
        && (delivers_alike own_message_lost && have_configurations own_message_lost))) ≡ true }
{}

/// States an example of a wrong life: a processor installs a ring of which it isn't a member.
///
/// It breaks `configurations` and meets the other four facts of virtual synchrony.
///
/// Rules: Outputs 11
pub fn a_configuration_lacks_its_own_node()
    ensures refused { (IsNode without_own_node 2 → HasConfigurations without_own_node 2) → ⊥ }
    ensures others { (has_same_text without_own_node
        && (delivers_safely without_own_node && (delivers_alike without_own_node && delivers_own without_own_node)))
        ≡ true }
{}

/// States an example of a wrong life: a later `Safe` of a ring has a lower number.
///
/// It breaks `configurations` and meets the other four facts of virtual synchrony.
///
/// Rules: Outputs 9 and 11
pub fn what_is_safe_falls()
    ensures refused { (IsNode safe_falls 1 → HasConfigurations safe_falls 1) → ⊥ }
    ensures others { (has_same_text safe_falls && (delivers_safely safe_falls && (delivers_alike safe_falls && delivers_own safe_falls))) ≡ true }
{}

/// States examples of wrong lives: a call is given, as `Agreed` or as `Rest`, under a number that isn't its own.
///
/// They break `configurations` and meet the other four facts of virtual synchrony.
///
/// Rules: Outputs 9 and 11
pub fn a_call_is_told_as_another()
    ensures agreed { (IsNode agreed_as_another 1 → HasConfigurations agreed_as_another 1) → ⊥ }
    ensures rest { (IsNode rest_as_another 1 → HasConfigurations rest_as_another 1) → ⊥ }
    ensures others_of_agreed { (has_same_text agreed_as_another
        && (delivers_safely agreed_as_another && (delivers_alike agreed_as_another && delivers_own agreed_as_another)))
        ≡ true }
    ensures others_of_rest { (has_same_text rest_as_another
        && (delivers_safely rest_as_another && (delivers_alike rest_as_another && delivers_own rest_as_another))) ≡ true }
{}

/// States examples of wrong lives: two name one ring with different members, or both name a member outside the group.
///
/// They break `configurations` and meet the other four facts of virtual synchrony.
///
/// Rules: Outputs 11
pub fn members_are_named_wrong()
    ensures apart { (IsNode named_apart 1 → HasConfigurations named_apart 1) → ⊥ }
    ensures stranger { (IsNode names_a_stranger 1 → HasConfigurations names_a_stranger 1) → ⊥ }
    ensures others_of_apart { (has_same_text named_apart
        && (delivers_safely named_apart && (delivers_alike named_apart && delivers_own named_apart))) ≡ true }
    ensures others_of_stranger { (has_same_text names_a_stranger
        && (delivers_safely names_a_stranger && (delivers_alike names_a_stranger && delivers_own names_a_stranger))) ≡ true }
{}

/// States examples of wrong lives: a transitional configuration has the wrong members.
///
/// One of them comes from another ring, or was in another ring in between; or a member is left out. The lives break
/// `configurations` and meet the other four facts of virtual synchrony.
///
/// Rules: Outputs 11
pub fn companions_are_told_wrong()
    ensures outsider { (IsNode joined_by_an_outsider 1 → HasConfigurations joined_by_an_outsider 1) → ⊥ }
    ensures between { (IsNode joined_after_another 1 → HasConfigurations joined_after_another 1) → ⊥ }
    ensures left_out { (IsNode companion_left_out 1 → HasConfigurations companion_left_out 1) → ⊥ }
    ensures others_of_outsider { (has_same_text joined_by_an_outsider
        && (delivers_safely joined_by_an_outsider && (delivers_alike joined_by_an_outsider && delivers_own joined_by_an_outsider))) ≡ true }
    ensures others_of_between { (has_same_text joined_after_another
        && (delivers_safely joined_after_another && (delivers_alike joined_after_another && delivers_own joined_after_another))) ≡ true }
    ensures others_of_left_out { (has_same_text companion_left_out
        && (delivers_safely companion_left_out && (delivers_alike companion_left_out && delivers_own companion_left_out))) ≡ true }
{}

/// States examples of wrong lives that agree with all others: they name wrong members, or end too early.
///
/// A configuration has fewer or more members than the ring in which its processor took part; or a life ends with a
/// transitional configuration. The lives break `configurations` and meet the other four facts of virtual synchrony.
///
/// Rules: Outputs 11
pub fn rings_are_named_wrong()
    ensures alone { (IsNode named_alone 1 → HasConfigurations named_alone 1) → ⊥ }
    ensures shared { (IsNode named_as_shared 2 → HasConfigurations named_as_shared 2) → ⊥ }
    ensures on_the_way { (IsNode ends_on_the_way 1 → HasConfigurations ends_on_the_way 1) → ⊥ }
    ensures others_of_alone { (has_same_text named_alone
        && (delivers_safely named_alone && (delivers_alike named_alone && delivers_own named_alone))) ≡ true }
    ensures others_of_shared { (has_same_text named_as_shared
        && (delivers_safely named_as_shared && (delivers_alike named_as_shared && delivers_own named_as_shared))) ≡ true }
    ensures others_of_on_the_way { (has_same_text ends_on_the_way
        && (delivers_safely ends_on_the_way && (delivers_alike ends_on_the_way && delivers_own ends_on_the_way))) ≡ true }
{}
