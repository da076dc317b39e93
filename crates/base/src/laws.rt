//! What holds of all entities and pairs: each law is the contract of a function with nothing to do.

ghost use Rattle.std.specs.Prelude.{◌≡◌, Result, IfOk, IsOkUnless};
ghost use Rattle.std.specs.Bool.{Decides};
ghost use Rattle.std.specs.Cmp.{IsTotalOrder};
ghost use Rattle.base.specs.Entity.{Entity, text_of, IsEntity, IsReading};
ghost use Rattle.base.specs.Order.{same_entity, same_pair, entity_cmp, pair_cmp, entity_cmp-total, pair_cmp-total};
ghost use Rattle.base.specs.declared.fault.EntityFault.{EntityFault};
ghost use Rattle.base.specs.declared.fault.EntityFault.TheVariants.{Memory};
ghost use Rattle.base.specs.declared.pair.Pair.{Pair};

/// A text names one entity: two entities with one text are one.
pub fn a_text_names_one_entity()
    ensures { (a b : Entity) → text_of a ≡ text_of b → a ≡ b }
{}

/// Reading an entity's text gives that entity, or `Memory`.
pub fn reading_a_text_gives_its_entity()
    ensures { (e : Entity) (answer : Result Entity EntityFault) → IsEntity e → IsReading (text_of e) answer
        → IsOkUnless answer Memory
        × IfOk answer (λ found. found ≡ e) }
{}

/// `==` on entities, and on pairs, tells whether they are equal.
pub fn sameness_is_equality()
    ensures entities { (a b : Entity) → Decides (same_entity a b) (a ≡ b) }
    ensures pairs { (p q : Pair) → Decides (same_pair p q) (p ≡ q) }
{}

/// Entities are totally ordered by the octets of their texts, and pairs by sender and then receiver.
pub fn orders_are_total()
    ensures entities { IsTotalOrder entity_cmp }
    ensures pairs { IsTotalOrder pair_cmp }
{}
