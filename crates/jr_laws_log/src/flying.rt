ghost use Rattle.jr_laws_log.specs.Flying.{ClearIsClear, EndedFliesNoMore, FliesIsFlying, FlyingIsStarted, NextFlies, NextIsFree};
ghost use Rattle.jr_laws_log.specs.Flying.{OthersFlyOn};

/// Under a number flies the I/O that was started under it, if that has not ended, and else nothing.
pub fn flying_is_started()
    ensures { FlyingIsStarted }
{}

/// Something flies under a number exactly if that flies after the history.
pub fn flies_is_flying()
    ensures { FliesIsFlying }
{}

/// A clone's piece is clear of what is in flight exactly if it is after the history.
pub fn clear_is_clear()
    ensures { ClearIsClear }
{}

/// What is started flies under the next number, and what it races with is marked.
pub fn next_flies()
    ensures { NextFlies }
{}

/// Nothing flies under the next number.
pub fn next_is_free()
    ensures { NextIsFree }
{}

/// What ends flies no more.
pub fn ended_flies_no_more()
    ensures { EndedFliesNoMore }
{}

/// A skip and a verdict change nothing of what flies.
pub fn others_fly_on()
    ensures { OthersFlyOn }
{}
