ghost use Rattle.sve_origin.specs.Segments.{SegmentBySegment};

/// Byte by byte and segment by segment, the origins of a text are the same: from a segment on, up to the next one, the
/// bytes are those that its place has, one after the other.
pub fn segment_by_segment()
    ensures { SegmentBySegment }
{}
