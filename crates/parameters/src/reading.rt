// What one line says.
use elements::LabelElement;
use elements::refusal::Refusal;

#[derive(Clone, Copy)]
pub enum LineReading {
    Passed,
    // `N`: what is pending is dropped, the reference becomes 0,0.
    Clear,
    // `R`: the reference point from here on, x and y.
    Reference(i32, i32),
    // An element; its data's place is counted from where its reader was told to count.
    Element(LabelElement),
    // `P`: what is pending is printed, with sets and copies.
    Print(i32, i32),
    Refused(Refusal),
}
