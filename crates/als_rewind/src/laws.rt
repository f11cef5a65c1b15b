// What stopped devices are once their control block says a front of their log.
ghost use Rattle.std.specs.Prelude.{◌≡◌, ◌+◌, ◌*◌, ◌<◌, ◌≤◌, ◌++◌, ℕ, List};
ghost use Rattle.als_record.specs.declared.record.Record.{Record as AnyRecord};
ghost use Rattle.als_record.specs.LogText.{end_of};
ghost use Rattle.als_record.specs.Tail.{reserve_of};
ghost use Rattle.als_disk.specs.Slot.{Slot, only};
ghost use Rattle.als_disk.specs.Store.{zeros};
ghost use Rattle.als_ckpt.specs.Holding.{HoldsControl};
ghost use Rattle.als_reopen.specs.Node.{Node as AnyNode, HoldsLog, IsNode};
ghost use Rattle.als_rewind.specs.Fronts.{front_said, front_node};

use als_reopen::a_log_makes_its_pages_anew;

/// A law: devices that hold a log, over pages of zeros and with a control block that says a front of
/// the log, are the node that holds that front. Whatever the log's device has behind the front is
/// nothing to it.
pub fn a_front_of_a_log_makes_a_node()
    ensures { (pages blocks : ℕ) (log old new images : ℕ → Slot) (n : AnyNode)
        (front rest : List AnyRecord) (history : List ℕ)
        → HoldsLog pages blocks log old n → n.log ≡ front ++ rest
        → end_of front + reserve_of front ≤ 512 * blocks
        → HoldsControl pages (512 * blocks) new (front_said history (end_of front))
        → ((page : ℕ) → page < pages → images page ≡ only zeros)
        → IsNode pages blocks log new images (front_node blocks history front) }
{
    a_log_makes_its_pages_anew();
}
