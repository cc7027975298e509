// What holds of where points fire, whatever the logs are. This call does nothing.
ghost use Rattle.shell_points.specs.Laws.{ExactFiring};

/// A watchpoint fires where its value is another than at the position before, and a point with a condition only where that
/// is met. `rcontinue` goes to the last position before the present one at which some point fires that may stop, and
/// `continue`, over points without programs, to the first after it.
pub fn exact_firing()
    ensures { ExactFiring }
{}
