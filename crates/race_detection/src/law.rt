//! The law of the detected races.

ghost use Rattle.race_detection.specs.DetectionLaws.{RunsAreDetected};

/// States that for every run the detected races are right: each is a determinacy race of the run's
/// own dag, and each cell with a race is reported once. The events without the accesses are enough
/// for the orders.
pub fn runs_are_detected()
    ensures { RunsAreDetected }
{}
