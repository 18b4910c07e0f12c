// Shapes of trees by chance: mostly small, so that brute force is quick.
use sampling::random::{chance, draw};
use search::trees::Shape;

// A shape of 63 nodes at most, of one leaf among them.
fn small(random: &mut u64) -> Shape {
    let kind = draw(random, 5);
    let height = draw(random, if kind == 4 { 6 } else { 32 });
    let most = 1 + draw(random, 60);
    let eighths = 3 + draw(random, 4);
    Shape {
        kind,
        height,
        most,
        eighths,
    }
}

fn larger(random: &mut u64) -> Shape {
    let kind = draw(random, 5);
    let height = if kind == 4 {
        6 + draw(random, 3)
    } else {
        32 + draw(random, 33)
    };
    let most = 64 + draw(random, 400);
    Shape {
        kind,
        height,
        most,
        eighths: 4,
    }
}

pub fn choose(random: &mut u64) -> Shape {
    if chance(random, 1, 12) {
        larger(random)
    } else {
        small(random)
    }
}
