//! The law that names, reasons and hits stay short.
ghost use Rattle.data_services.specs.Short.{ShortStays};

/// The law that the names of the processes, the reasons why their threads stand and what they hit stay short, whatever
/// command of Memory or Registers is executed.
pub fn what_is_short_stays()
    ensures { ShortStays }
{}
