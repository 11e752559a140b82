//! Worked examples of the script language.
//!
//! Formats: Scripts

ghost use Rattle.ring_script.specs.Examples.{AreFaultExamples, AreScheduleExamples, AreOperationExamples};

/// States that the worked examples of the script language hold.
///
/// It is an example and has no effect at run time. It checks the faulty line of each bad text, the requests of each
/// good text, and the bytes of each operation.
///
/// Formats: Scripts
pub fn script_example()
    ensures faults { AreFaultExamples }
    ensures schedules { AreScheduleExamples }
    ensures operations { AreOperationExamples }
{}
