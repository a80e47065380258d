//! What holds of every service.
ghost use Rattle.soc_serve.specs.Lives.{ServicesAreLives};

use soc_edge::Disk;

/// A service over a journal is a life of the desk.
pub fn services_are_lives<D: Disk>()
    ensures { (disk disk' : D) → ServicesAreLives (D.state disk) (D.state disk') }
{}
