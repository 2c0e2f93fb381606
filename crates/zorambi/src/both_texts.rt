// The entries that read two texts and check what they say: the one number of the verdict, and above it where a refusal points.
ghost use Rattle.std.specs.Prelude.{◌≡◌, true, false};
ghost use Rattle.stab.specs.Program.{check_texts, model_texts, check_fault, model_fault};
ghost use Rattle.stab.specs.Entry.{texts_packed};
ghost use Rattle.told.specs.Demands.{TextsSay, ModelTextsSay};

// The check of a schema text and a proof text: its answer is 0 exactly when both are read and what they say keeps the rules, and then says
// of it what that of `zorambi_check` says.
#[unsafe(no_mangle)]
pub extern "C" fn zorambi_check_texts(schema: &[u8], proof: &[u8]) -> u64
    ensures value { result ≡ texts_packed (check_texts false schema.now proof.now) (check_fault false schema.now proof.now) }
    ensures texts_say { TextsSay false schema.now proof.now result }
{
    let j = program::check(false, schema, proof);
    let verdict = j.verdict;
    let fault = j.fault;
    told::texts(verdict, fault)
}

// The same of an older record.
#[unsafe(no_mangle)]
pub extern "C" fn zorambi_check_older_texts(schema: &[u8], proof: &[u8]) -> u64
    ensures value { result ≡ texts_packed (check_texts true schema.now proof.now) (check_fault true schema.now proof.now) }
    ensures texts_say { TextsSay true schema.now proof.now result }
{
    let j = program::check(true, schema, proof);
    let verdict = j.verdict;
    let fault = j.fault;
    told::texts(verdict, fault)
}

// The model check of a schema text and a model text, likewise as `zorambi_check_model`.
#[unsafe(no_mangle)]
pub extern "C" fn zorambi_check_model_texts(schema: &[u8], model: &[u8]) -> u64
    ensures value { result ≡ texts_packed (model_texts schema.now model.now) (model_fault schema.now model.now) }
    ensures model_texts_say { ModelTextsSay schema.now model.now result }
{
    let j = program::check_model(schema, model);
    let verdict = j.verdict;
    let fault = j.fault;
    told::texts(verdict, fault)
}
