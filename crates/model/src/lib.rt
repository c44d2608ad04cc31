// The declared types of the panel-cutting optimizer, under the names of its Rust source:
// src/domain, src/render and src/optimizer. What they mean together is said in specs/.
#![tactic(auto)]

#[derive(Clone, Copy, PartialEq, Eq, Default)]
pub enum PatternDirection {
    #[default]
    None,
    ParallelToWidth,
    ParallelToLength,
}

#[derive(Clone, Copy, PartialEq, Eq)]
pub enum LayoutKind {
    Guillotine,
    Nested,
}

#[derive(Clone, Copy, PartialEq, Eq)]
pub enum OptimizerEffort {
    Fast,
    Balanced,
    Thorough,
}

#[derive(Clone, Copy, PartialEq, Eq)]
pub enum GuillotineRectChoice {
    Area,
    ShortSide,
    LongSide,
}

#[derive(Clone, Copy, PartialEq, Eq)]
pub enum GuillotineSplitHeuristic {
    Horizontal,
    LongerAxis,
    MaximizeArea,
}

#[derive(Clone, Copy, PartialEq, Eq)]
pub enum RotationPreference {
    PreferUpright,
    PreferRotated,
}

#[derive(Clone, Copy, PartialEq, Eq)]
pub struct BaselineGuillotineHeuristic {
    pub rect_choice: GuillotineRectChoice,
    pub split: GuillotineSplitHeuristic,
    pub rotation: RotationPreference,
}

// GuillotineSplitDirection of a split, CutOrientation of a guide's cut.
#[derive(Clone, Copy, PartialEq, Eq)]
pub enum Direction {
    Horizontal,
    Vertical,
}

#[derive(Clone, Copy, PartialEq, Eq)]
pub struct Rect {
    pub x: u32,
    pub y: u32,
    pub width: u32,
    pub length: u32,
}

#[derive(Clone, Copy, PartialEq, Eq, Default)]
pub struct StockInstance {
    pub stock_id: u64,
    pub instance: u32,
    pub width: u32,
    pub length: u32,
    pub pattern: PatternDirection,
}

#[derive(Clone, Copy, PartialEq, Eq, Default)]
pub struct CutInstance {
    pub cut_id: u64,
    pub instance: u32,
    pub width: u32,
    pub length: u32,
    pub pattern: PatternDirection,
    pub can_rotate: bool,
}

// CutInstanceKey and StockInstanceKey: the id and the number of an instance of its record.
#[derive(Clone, Copy, PartialEq, Eq)]
pub struct InstanceKey {
    pub id: u64,
    pub instance: u32,
}

#[derive(Clone, Copy, PartialEq, Eq)]
pub struct FitResult {
    pub rect: Rect,
    pub pattern: PatternDirection,
    pub rotated: bool,
}
