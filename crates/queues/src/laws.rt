// What holds of every two queues, proved once and for all.
ghost use Rattle.queues.specs.Calls.{Alike};

// Started with equal lists and limits, the same calls get the same answers from two queues, letters aside,
// whatever their kinds.
pub fn queues_of_all_kinds_agree<T: Copy>()
    ensures { Alike T }
{}
