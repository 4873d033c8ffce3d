//! Rows that are written before others.

ghost use Rattle.h5w_chunks.specs.Early.{EarlyJoins, WrittenStand};

/// Rows that are written stand in each image, where no two of their chunks meet.
pub fn rows_stand()
    ensures { WrittenStand }
{}

/// Rows that stand in an image, and the writes of those behind them, are rows that stand once these writes are done.
pub fn early_joins()
    ensures { EarlyJoins }
{}
