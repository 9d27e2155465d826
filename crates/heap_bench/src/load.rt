// The load: each round fills a ranking, changes and removes keys at random, and empties it in order.
use heap::Ranking;
use keys::left::LeftKey;

// A linear congruential sequence; what is drawn are the upper bits of its numbers.
#[derive(Clone, Copy)]
struct Sequence {
    seed: u32,
}

impl Sequence {
    fn draw(&mut self) -> u32 {
        self.seed = self
            .seed
            .wrapping_mul(1_664_525)
            .wrapping_add(1_013_904_223);
        self.seed >> 8
    }

    // A job number, 0 to 1,023.
    fn number(&mut self) -> u32 {
        self.draw() % 1024
    }

    // A left work, 1 to 10,000.
    fn left(&mut self) -> u32 {
        self.draw() % 10_000 + 1
    }
}

// A ranking under load, and what the numbers come to in the order in which they came out.
#[derive(Drop)]
struct Load {
    ranking: Ranking<LeftKey>,
    random: Sequence,
    sum: u32,
}

impl Load {
    fn fill(&mut self) {
        for number in 0..1024 {
            let left = self.random.left();
            let _ = self.ranking.insert(LeftKey { left, number });
        }
    }

    fn change(&mut self) {
        for _ in 0..4096 {
            let number = self.random.number();
            let left = self.random.left();
            let _ = self.ranking.replace(LeftKey { left, number });
        }
    }

    fn thin(&mut self) {
        for _ in 0..512 {
            let _ = self.ranking.remove(self.random.number());
        }
    }

    fn empty(&mut self) {
        for _ in 0..1024 {
            if let Ok(number) = self.ranking.first() {
                self.sum = self.sum.wrapping_mul(31).wrapping_add(number);
                let _ = self.ranking.remove(number);
            }
        }
    }
}

// The sum after so many rounds.
pub fn run(rounds: u32) -> u32 {
    let mut load = Load {
        ranking: Ranking::new(LeftKey { left: 0, number: 0 }),
        random: Sequence { seed: 1 },
        sum: 0,
    };
    for _ in 0..rounds {
        load.fill();
        load.change();
        load.thin();
        load.empty();
    }
    load.sum
}
