use ec_moment::Moment;
use ec_points::Points;
use ec_rows::MarkRow;
use ec_store::PropTable;
use ec_terms::Theory;

/// What queries on broken begins and on clashes read: the theory, which properties are kept, and their marks.
#[derive(Drop)]
pub struct Marked<'a, T: Moment, M: MarkRow<T>> {
    pub theory: &'a Theory,
    pub props: &'a PropTable,
    pub points: &'a Points<T, M>,
}
